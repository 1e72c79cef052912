#![tactic(auto)]

ghost use Rattle.edge_cases.specs.RefusalsAtTheirEdges.{RefusalsAtTheirEdges};
ghost use Rattle.edge_cases.specs.ThirdWorkedHistory.{ThirdWorkedHistory};

// Every call of a house at the edges of its questions: which number, cause and line it is refused with, and where it is
// granted just before.
pub fn refusals_at_their_edges()
    ensures { RefusalsAtTheirEdges }
{}

// A count of seven stations over bridge and the token tree, worked through: late slips with negative amounts, one of them to
// oneself, one that was overtaken by a slip of its sender, and reports from four stations.
pub fn third_worked_history()
    ensures { ThirdWorkedHistory }
{}
