// What the other crates share: definitions, in specs/, lemmas on them, and the limits as constants.
#![tactic(auto)]

pub mod limits;
