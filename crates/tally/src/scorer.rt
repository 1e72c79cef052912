use script::{Pending, Tally, answer_text};

// A round that is being scored, byte by byte.
#[derive(Drop)]
pub(crate) struct Scorer<'a, R> {
    // where answers and scores go
    rt: &'a R,
    tally: Tally,
    pending: Pending,
}

impl<'a, R: Print + AllocGlobal> Scorer<'a, R> {
    pub(crate) fn new(rt: &'a R) -> Self {
        Scorer {
            rt,
            tally: Tally::new(),
            pending: Pending::new(),
        }
    }

    // Plays bytes of the input, and answers each line as its end comes.
    pub(crate) fn feed(&mut self, bytes: &[u8]) -> anyhow::Result<()> {
        for byte in bytes {
            if let Some(line) = self.pending.feed(*byte) {
                self.answer(line)?;
            }
        }
        Ok(())
    }

    // Plays a last line that has no end, and writes the scores.
    pub(crate) fn finish(&mut self) -> anyhow::Result<()> {
        if self.pending.is_begun() {
            self.answer(self.pending)?;
        }
        let scores = self.tally.end_text(self.rt.alloc())?;
        self.rt.print(scores.as_str())?;
        Ok(())
    }

    fn answer(&mut self, line: Pending) -> anyhow::Result<()> {
        let told = answer_text(self.rt.alloc(), self.tally.play(line.line()))?;
        self.rt.print(told.as_str())?;
        Ok(())
    }
}
