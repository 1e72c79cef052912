ghost use Rattle.std.specs.Prelude.{◌≡◌};
ghost use Rattle.sections.specs.Chess.{chess};

use crate::chess::Chess;
use crate::section::Section;

// The rule that the section Chess carries is the rule of chess, and no other that would keep the interface. Bridge has a function of
// its own, since a clause over all scorings could not name the rule of one.
pub fn carries_chess_rule()
    ensures { ⟦<Chess as Section>⟧.rule ≡ chess }
{}
