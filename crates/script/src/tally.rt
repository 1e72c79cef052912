ghost use Rattle.std.specs.Prelude.{◌≡◌, IfOk, string_bytes, OnErr};
ghost use Rattle.std.specs.Option.{option_copied};
ghost use Rattle.sections.specs.Rule.{blank_sheet};
ghost use Rattle.script.specs.Rounds.{waiting, playing, answer_code, played, end_text};
ghost use Rattle.script.specs.Tallied.{tally_state};

use crate::entries::enter_line;
use crate::refusal::Refusal;
use crate::texts::scores_text;
use crate::words::{Kind, read_kind};
use sections::{Bridge, Chess, Section};
use std::alloc::{AllocError, Global};

// The scoring of one round: a line names the section, and the lines after it enter results. The sheets of the two sections are of
// two types, so that each has its case; `Section` can be no `dyn`, since `blank` gives a `Self`.
#[derive(Clone, Copy, Debug, PartialEq, Eq)]
pub enum Tally {
    Waiting,
    Chess(Chess),
    Bridge(Bridge),
}

impl Tally {
    pub fn new() -> Tally
        ensures { tally_state result ≡ waiting }
    {
        Tally::Waiting
    }

    // A round of that kind, with nothing scored.
    fn of_kind(kind: Kind) -> Tally
        ensures { tally_state result ≡ playing kind blank_sheet }
    {
        match kind {
            Kind::Chess => Tally::Chess(Chess::blank()),
            Kind::Bridge => Tally::Bridge(Bridge::blank()),
        }
    }

    // Plays one line; None stands for a line that is too long.
    #[tactic(auto, using(crate::proofs::Plays::line_granted, crate::proofs::Plays::line_refused))]
    pub fn play(&mut self, line: Option<&[u8]>) -> Result<(), Refusal>
        ensures does { (tally_state self.new, answer_code result) ≡ played (tally_state self.old) (option_copied line.entry) }
        ensures keeps { OnErr result (self.new ≡ self.old) }
    {
        let bytes = line.ok_or(Refusal::Malformed)?;
        match self {
            Tally::Waiting => *self = Tally::of_kind(read_kind(bytes).ok_or(Refusal::Malformed)?),
            Tally::Chess(sheet) => enter_line(sheet, bytes)?,
            Tally::Bridge(sheet) => enter_line(sheet, bytes)?,
        }
        Ok(())
    }

    // The scores at the end.
    pub fn end_text(&self, heap: Global) -> Result<String, AllocError>
        ensures { IfOk result (λ s. string_bytes s ≡ end_text (tally_state self.now)) }
    {
        match self {
            Tally::Waiting => Ok(String::new(heap)),
            Tally::Chess(sheet) => scores_text(heap, sheet),
            Tally::Bridge(sheet) => scores_text(heap, sheet),
        }
    }
}
