ghost use Rattle.std.specs.Prelude.{◌≡◌, length, ◌+ℤ◌, Some, slice_set};
ghost use Rattle.common.specs.Limits.{line_count, largest_figure};
ghost use Rattle.sections.specs.Rule.{Within, blank_sheet, figure_at, entered, credited};
ghost use Rattle.sections.specs.Lines.{ReadsLine};
ghost use Rattle.common.specs.Did.{Did};
ghost use Rattle.sections.specs.Codes.{cause_and_line};
ghost use Rattle.sections.specs.Pairs.{figure_questions, pair_gains, pair_entry};

use crate::fault::{Cause, Fault};
use crate::line::Line;
use crate::pair::Pair;
use common::limits::{LARGEST_FIGURE, LINES};

// The 32 figures of a sheet, each from -20,000 to 20,000.
#[derive(Clone, Copy, Debug, PartialEq, Eq)]
pub(crate) struct Figures {
    values: [i16; LINES as usize],
    ghost size: { length values ≡ line_count },
    ghost range: { Within largest_figure values },
}

impl Figures {
    pub(crate) fn zero() -> Figures
        ensures { result.values ≡ blank_sheet }
    {
        Figures {
            values: [0; LINES as usize],
        }
    }

    pub(crate) fn at(&self, line: Line) -> i32
        ensures { result ≡ figure_at self.now.values line.number }
    {
        i32::from(self.values[line.number() as usize])
    }

    // The figure of a line, where there is one.
    pub(crate) fn figure(&self, line: u32) -> Result<i32, Fault>
        ensures { ReadsLine line result (λ v. v ≡ figure_at self.now.values line) }
    {
        let at = Line::new(line)?;
        Ok(self.at(at))
    }

    // A new figure of a line, where it is in the range.
    fn put(&mut self, line: Line, figure: i64) -> Result<(), Fault>
        ensures { Did (figure_questions figure line.number) cause_and_line (λ _. self.new.values ≡ slice_set self.old.values line.number figure) self.old self.new result }
    {
        let largest = i64::from(LARGEST_FIGURE);
        if !(-largest..=largest).contains(&figure) {
            return Err(Fault::new(Cause::OutOfRange, line.number()));
        }
        // that the figure fits in 16 bits is proved of the cast; `try_from` would ask it a second time
        self.values[line.number() as usize] = figure as i16;
        Ok(())
    }

    // Adds to the figure of a line, where it stays in the range.
    pub(crate) fn add(&mut self, line: Line, by: i32) -> Result<(), Fault>
        ensures { Did (figure_questions (figure_at self.old.values line.number +ℤ by) line.number) cause_and_line (λ _. self.new.values ≡ credited self.old.values line.number by) self.old self.new result }
    {
        self.put(line, i64::from(self.at(line)) + i64::from(by))
    }

    // Adds to the figures of two lines, where both stay in the range.
    fn add_pair(&mut self, pair: Pair, x: i32, y: i32) -> Result<(), Fault>
        ensures { Did (pair_entry self.old.values pair.a.number pair.b.number (Some (x, y))) cause_and_line (λ _. self.new.values ≡ entered self.old.values (pair_gains pair.a.number pair.b.number (Some (x, y)))) self.old self.new result }
    {
        let mut next = *self;
        next.add(pair.first(), x)?;
        next.add(pair.second(), y)?;
        *self = next;
        Ok(())
    }

    // An entry: each of two lines gains its part of the result, where there is one.
    pub(crate) fn enter(&mut self, a: u32, b: u32, gains: Option<(i32, i32)>) -> Result<(), Fault>
        ensures { Did (pair_entry self.old.values a b gains) cause_and_line (λ _. self.new.values ≡ entered self.old.values (pair_gains a b gains)) self.old self.new result }
    {
        let pair = Pair::new(a, b)?;
        let Some((first, second)) = gains else {
            return Err(Fault::new(Cause::BadResult, a));
        };
        self.add_pair(pair, first, second)
    }
}
