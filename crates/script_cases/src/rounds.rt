use script::{Tally, answer_text};
use std::alloc::{AllocError, Global};

// The first line of a round that is not answered as it must be, and what it was told; the lines are played on the tally in turn.
pub(crate) fn wrong_line<'a>(
    heap: Global,
    tally: &mut Tally,
    lines: &[(&'a str, &str)],
) -> Result<Option<(&'a str, String)>, AllocError> {
    for (line, want) in lines {
        let told = answer_text(heap, tally.play(Some(line.as_bytes())))?;
        if told.as_str() != *want {
            return Ok(Some((*line, told)));
        }
    }
    Ok(None)
}
