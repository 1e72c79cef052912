ghost use Rattle.std.specs.Prelude.{◌≡◌, List, length, ℤ};
ghost use Rattle.common.specs.Limits.{line_count, largest_figure};
ghost use Rattle.sections.specs.Rule.{Rule, Lawful, Within, blank_sheet, figure_at, entered, debited, credited};
ghost use Rattle.sections.specs.Lines.{ReadsLine};
ghost use Rattle.common.specs.Did.{Did};
ghost use Rattle.sections.specs.Codes.{cause_and_line};

use crate::fault::Fault;

// A sheet of points of one kind of scoring. Its meaning is the list of its 32 figures; its rule says what a call is asked.
pub trait Section: Copy {
    ghost figures: { Self → List ℤ };

    ghost rule: { Rule };

    // A sheet with 0 at each line.
    fn blank() -> Self
        ensures { figures result ≡ blank_sheet };

    // A result between lines `a` and `b`: each line gains what the rule gives it. Any three numbers are met by a result or a
    // refusal, so that no type may rule some out; the same holds of line and amount.
    fn enter(&mut self, a: u32, b: u32, r: i32) -> Result<(), Fault>
        ensures { Did (rule.entry (figures self.old) a b r) cause_and_line (λ _. figures self.new ≡ entered (figures self.old) (rule.gain a b r)) self.old self.new result };

    // The amount leaves the line.
    fn debit(&mut self, line: u32, amount: i32) -> Result<(), Fault>
        ensures { Did (rule.debit (figures self.old) line amount) cause_and_line (λ _. figures self.new ≡ debited (figures self.old) line amount) self.old self.new result };

    // The amount joins the line.
    fn credit(&mut self, line: u32, amount: i32) -> Result<(), Fault>
        ensures { Did (rule.credit (figures self.old) line amount) cause_and_line (λ _. figures self.new ≡ credited (figures self.old) line amount) self.old self.new result };

    // The figure of a line.
    fn figure(&self, line: u32) -> Result<i32, Fault>
        ensures { ReadsLine line result (λ v. v ≡ figure_at (figures self.now) line) };

    ghost lines: { (s : Self) → length (figures s) ≡ line_count };

    ghost bounded: { (s : Self) → Within largest_figure (figures s) };

    ghost lawful: { Lawful rule };
}
