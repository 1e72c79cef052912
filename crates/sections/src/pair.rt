ghost use Rattle.std.specs.Prelude.{◌≡◌, true, [], ◌∷◌};
ghost use Rattle.common.specs.Did.{Answers};
ghost use Rattle.common.specs.Questions.{ask};
ghost use Rattle.sections.specs.Codes.{cause_and_line};
ghost use Rattle.sections.specs.Rule.{good_lines};

use crate::fault::{Cause, Fault};
use crate::line::Line;

// The two lines of an entry, which differ.
#[derive(Clone, Copy)]
pub(crate) struct Pair {
    a: Line,
    b: Line,
    ghost apart: { good_lines a.number b.number ≡ true },
}

impl Pair {
    pub(crate) fn new(a: u32, b: u32) -> Result<Pair, Fault>
        ensures { Answers (ask (good_lines a b) (9, a) ∷ []) cause_and_line (λ p. (p.a.number ≡ a) × (p.b.number ≡ b)) result }
    {
        let fault = Fault::new(Cause::BadLines, a);
        let first = Line::new(a)?;
        let Ok(second) = Line::new(b) else {
            return Err(fault);
        };
        if a == b {
            return Err(fault);
        }
        Ok(Pair {
            a: first,
            b: second,
        })
    }

    pub(crate) fn first(self) -> Line
        ensures { result.number ≡ self.a.number }
    {
        self.a
    }

    pub(crate) fn second(self) -> Line
        ensures { result.number ≡ self.b.number }
    {
        self.b
    }
}
