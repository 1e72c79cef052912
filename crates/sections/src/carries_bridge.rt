ghost use Rattle.std.specs.Prelude.{◌≡◌};
ghost use Rattle.sections.specs.Bridge.{bridge};

use crate::bridge::Bridge;
use crate::section::Section;

// The rule that the section Bridge carries is the rule of bridge, and no other that would keep the interface. Not one
// function with that of chess: see there.
pub fn carries_bridge_rule()
    ensures { ⟦<Bridge as Section>⟧.rule ≡ bridge }
{}
