#![tactic(auto)]

ghost use Rattle.worked_cases.specs.WorkedCases.{WorkedCases};

// The ten worked cases hold of the rules that chess, bridge and the token tree carry.
pub fn worked_cases()
    ensures { WorkedCases }
{}
