// What is proved of every history of a house: each function's contract names one statement.
ghost use Rattle.house_rules.specs.Theorem.Statements.{HouseIsItsPlainRun, CountsAreConsistent, ScoresAreGains, CloseIsExact, MethodRefusesNothing, MethodsAgree, CountsStay};
ghost use Rattle.house_rules.specs.Theorem.Messages.{CloseTellsTheMessages, MessagesAreFew};
ghost use Rattle.house_rules.specs.Theorem.Replay.{MethodIsToldTheTruth};
ghost use Rattle.house_rules.specs.Theorem.Posts.{PostTells};
ghost use Rattle.house_rules.specs.Theorem.Text.{TheTextSaysEverything};
ghost use Rattle.house_rules.specs.Theorem.Gathers.{WhatGatherTells};
ghost use Rattle.house_rules.specs.Theorem.WorkedHistory.{WorkedHistory};

use methods::Method;

// After every history, the plain run of all granted enters, posts and takes refuses none and holds the sheets of the house
// and, in their order, the slips of its tray.
pub fn house_is_its_plain_run<M: Method>()
    ensures { HouseIsItsPlainRun M.Method.model }
{}

// Every count that is closed is consistent: the plain house runs through the events before the cut and then the rest.
pub fn counts_are_consistent<M: Method>()
    ensures { CountsAreConsistent M.Method.model }
{}

// In every count that is closed, each line's score is what the entries before the turns gave it.
pub fn scores_are_gains<M: Method>()
    ensures { ScoresAreGains M.Method.model }
{}

// Close is granted exactly where the count is complete by the granted calls.
pub fn close_is_exact<M: Method>()
    ensures { CloseIsExact M.Method.model }
{}

// Where the house's own questions are answered yes, so are its counting method's: no call is refused by the method.
pub fn method_refuses_nothing<M: Method>()
    ensures { MethodRefusesNothing M.Method.model }
{}

// Houses made alike but for the method, and given the same calls, give the same responses and stay alike, messages aside.
pub fn methods_agree<M: Method, K: Method>()
    ensures { MethodsAgree M.Method.model K.Method.model }
{}

// Between a close and the next granted open, record, late list and text stay as they are, whatever is called.
pub fn counts_stay<M: Method>()
    ensures { CountsStay M.Method.model }
{}

// A granted close tells the late slips of the count and the control messages that its begin and its reports sent.
pub fn close_tells_the_messages<M: Method>()
    ensures { CloseTellsTheMessages M.Method.model }
{}

// At every time the house's method is in the state that its model comes to when it is replayed from the granted calls and
// their answers, and the messages that reports and close tell are those that the replay sends.
pub fn method_is_told_the_truth<M: Method>()
    ensures { MethodIsToldTheTruth M.Method.model }
{}

// A granted close tells at most 1,000 messages for each late slip, and 1,000 more.
pub fn messages_are_few<M: Method>()
    ensures { MessagesAreFew M.Method.model }
{}

// A granted post answers the number by which its slip, and no other slip of the house, is then named: one more than its
// station's posts before.
pub fn post_tells<M: Method>()
    ensures { PostTells M.Method.model }
{}

// The text of a count has a line for each figure of its record that is not 0, for each late slip and for each score that is
// not 0, and no other but its end; and it can be read back: it tells the record and the late slips in their order.
pub fn text_says_everything()
    ensures { TheTextSaysEverything }
{}

// A granted gather of the root tells how many slips cross the cut of the count; that of any station tells its frozen deficit
// and what the gathers of its children told in the count, added up; and its frozen deficit is its granted posts less its
// granted takes, late ones apart, between the turn before and its last turn.
pub fn gather_tells<M: Method>()
    ensures { WhatGatherTells M.Method.model }
{}

// A history of two counts, worked through: late slips, a take that turns its receiver, a close refused before the reports
// are in, and a second count with the colours changed over.
pub fn worked_history()
    ensures { WorkedHistory }
{}
