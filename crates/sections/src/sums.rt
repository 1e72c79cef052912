ghost use Rattle.std.specs.Prelude.{◌≡◌};
ghost use Rattle.sections.specs.Sums.{line_sum};
ghost use Rattle.sections.specs.Lines.{ReadsLine};

use crate::fault::Fault;
use crate::line::Line;
use crate::section::Section;

// The sum of one line over sheets of any section. A `for`, since `figure` may answer a refusal.
pub fn line_sum<S: Section>(sheets: &[S], line: u32) -> Result<i128, Fault>
    ensures { ReadsLine line result (λ v. v ≡ line_sum S.Section.figures line sheets.now) }
{
    Line::new(line)?;
    let mut sum: i128 = 0;
    for s in sheets {
        sum += i128::from(s.figure(line)?);
    }
    Ok(sum)
}
