ghost use Rattle.std.specs.Prelude.{◌≡◌, ◌<◌};
ghost use Rattle.common.specs.Limits.{line_count};
ghost use Rattle.sections.specs.Lines.{ReadsLine};

use crate::fault::{Cause, Fault};
use common::limits::LINES;

// A line of a sheet.
#[derive(Clone, Copy)]
pub(crate) struct Line {
    number: u32,
    ghost ok: { number < line_count },
}

impl Line {
    pub(crate) fn new(line: u32) -> Result<Line, Fault>
        ensures { ReadsLine line result (λ l. l.number ≡ line) }
    {
        if line >= LINES {
            return Err(Fault::new(Cause::BadLines, line));
        }
        Ok(Line { number: line })
    }

    pub(crate) fn number(self) -> u32
        ensures { result ≡ self.number }
    {
        self.number
    }
}
