ghost use Rattle.std.specs.Prelude.{◌≡◌, IfOk, string_bytes};
ghost use Rattle.std.specs.Fmt.{signed_decimal};
ghost use Rattle.script.specs.Numbers.{ReadsBack};
ghost use Rattle.script.specs.Texts.{answer_text, sheet_scores};

use crate::refusal::Refusal;
use common::limits::LINES;
use sections::Section;
use std::alloc::{AllocError, Global};

// A number as a script writes it. What is written of a number of at most nine digits is read as that number.
#[tactic(auto, using(crate::proofs::Written::reads_back))]
pub fn number_text(heap: Global, n: i32) -> Result<String, AllocError>
    ensures text { IfOk result (λ s. string_bytes s ≡ signed_decimal n) }
    ensures back { ReadsBack }
{
    format!(in heap; "{n}")
}

// The answer to a line of a script.
pub fn answer_text(heap: Global, answer: Result<(), Refusal>) -> Result<String, AllocError>
    ensures { IfOk result (λ s. string_bytes s ≡ answer_text answer) }
{
    match answer {
        Ok(()) => String::from_str(heap, "ok\n"),
        Err(refusal) => format!(in heap; "{refusal}\n"),
    }
}

// The scores of a sheet: each line whose figure is not 0, in order. Its numbers can be read back.
#[tactic(auto, using(crate::proofs::Scores::score_steps, crate::proofs::Written::reads_back))]
pub fn scores_text<S: Section>(heap: Global, sheet: &S) -> Result<String, AllocError>
    ensures text { IfOk result (λ s. string_bytes s ≡ sheet_scores (S.Section.figures sheet.now)) }
    ensures back { ReadsBack }
{
    let mut text = String::new(heap);
    for line in 0..LINES {
        let figure = sheet.figure(line).unwrap();
        if figure != 0 {
            writeln!(text, "score\t{line}\t{figure}")?;
        }
    }
    Ok(text)
}
