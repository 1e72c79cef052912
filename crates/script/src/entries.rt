ghost use Rattle.std.specs.Prelude.{◌≡◌, ℕ, List, ℤ, Option};
ghost use Rattle.script.specs.Entries.{entry_of};
ghost use Rattle.script.specs.Codes.{refusal_code};
ghost use Rattle.script.specs.Lines.{line_questions, line_entered};
ghost use Rattle.common.specs.Did.{Did};
ghost use Rattle.script.specs.Letters.{chess_result};
ghost use Rattle.script.specs.Numbers.{number};

use crate::fields::first_field;
use crate::letters::read_letter;
use crate::numbers::{read_natural, read_number};
use crate::refusal::Refusal;
use sections::{Bridge, Chess, Section};

// A result between two lines of a sheet, in the numbers that `Section::enter` takes.
#[derive(Clone, Copy, PartialEq, Eq, Debug)]
pub struct Entry {
    pub a: u32,
    pub b: u32,
    pub r: i32,
}

// How a section's results are written.
pub trait ResultField: Section {
    ghost field_result: { List ℕ → Option ℤ };

    fn read_result(field: &[u8]) -> Option<i32>
        ensures { result ≡ field_result field.now };
}

impl ResultField for Chess {
    ghost field_result = { chess_result };

    fn read_result(field: &[u8]) -> Option<i32> {
        read_letter(field)
    }
}

impl ResultField for Bridge {
    ghost field_result = { number };

    fn read_result(field: &[u8]) -> Option<i32> {
        read_number(field)
    }
}

// A line that enters a result, taken apart. A function, since it is passed a section by its type alone.
pub fn read_entry<S: ResultField>(line: &[u8]) -> Option<Entry>
    ensures { result ≡ entry_of S.ResultField.field_result line.now }
{
    let (first, more) = first_field(line);
    let (second, last) = first_field(more?);
    Some(Entry {
        a: read_natural(first)?,
        b: read_natural(second)?,
        r: S::read_result(last?)?,
    })
}

// Plays a line of a script on a sheet.
#[tactic(auto, using(crate::proofs::Plays::entry_granted, crate::proofs::Plays::entry_refused))]
pub fn enter_line<S: ResultField>(sheet: &mut S, line: &[u8]) -> Result<(), Refusal>
    ensures { Did (line_questions S.Section.rule (S.Section.figures sheet.old) (entry_of S.ResultField.field_result line.now)) refusal_code (λ _. S.Section.figures sheet.new ≡ line_entered S.Section.rule (S.Section.figures sheet.old) (entry_of S.ResultField.field_result line.now)) sheet.old sheet.new result }
{
    let entry = read_entry::<S>(line).ok_or(Refusal::Malformed)?;
    sheet.enter(entry.a, entry.b, entry.r)?;
    Ok(())
}
