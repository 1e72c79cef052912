ghost use Rattle.std.specs.Prelude.{◌≡◌, [], ◌∷◌, nat_lt};
ghost use Rattle.common.specs.Did.{Answers};
ghost use Rattle.common.specs.Questions.{ask};
ghost use Rattle.common.specs.Limits.{line_count};
ghost use Rattle.sections.specs.Codes.{cause_and_line};

use crate::fault::{Cause, Fault};
use crate::figures::Figures;
use crate::line::Line;
use crate::scoring::Scoring;
use crate::section::Section;
use std::marker::PhantomData;

// A sheet of points of one kind of scoring.
#[derive(Clone, Copy, Debug, PartialEq, Eq)]
pub struct Sheet<K: Scoring> {
    figures: Figures,
    scoring: PhantomData<K>,
}

impl<K: Scoring> Sheet<K> {
    // The line of a debit or a credit, whose amount a slip may carry.
    fn line_of_amount(line: u32, amount: i32) -> Result<Line, Fault>
        ensures { Answers (ask (nat_lt line line_count) (9, line) ∷ ask (K.is_amount amount) (3, line) ∷ []) cause_and_line (λ at. at.number ≡ line) result }
    {
        let at = Line::new(line)?;
        if !K::is_amount(amount) {
            return Err(Fault::new(Cause::BadAmount, line));
        }
        Ok(at)
    }
}

impl<K: Scoring> Section for Sheet<K> {
    ghost use Rattle.sections.specs.Sheet.{figures_of};
    ghost use Rattle.std.proofs.Common.{rules};

    ghost figures = { figures_of };

    ghost rule = { K.rule };

    ghost lines = { Prim.search rules };

    ghost bounded = { Prim.search rules };

    ghost lawful = { K.lawful };

    fn blank() -> Self {
        Sheet {
            figures: Figures::zero(),
            scoring: PhantomData,
        }
    }

    fn enter(&mut self, a: u32, b: u32, r: i32) -> Result<(), Fault> {
        self.figures.enter(a, b, K::gains(r))
    }

    fn debit(&mut self, line: u32, amount: i32) -> Result<(), Fault> {
        let at = Self::line_of_amount(line, amount)?;
        if !K::covers(self.figures.at(at), amount) {
            return Err(Fault::new(Cause::TooLittle, line));
        }
        self.figures.add(at, -amount)
    }

    fn credit(&mut self, line: u32, amount: i32) -> Result<(), Fault> {
        let at = Self::line_of_amount(line, amount)?;
        self.figures.add(at, amount)
    }

    fn figure(&self, line: u32) -> Result<i32, Fault> {
        self.figures.figure(line)
    }
}
