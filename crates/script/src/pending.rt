ghost use Rattle.std.specs.Prelude.{◌≡◌, List, ℕ, Option, true, false, [], Some, None, MatchOption, ◌==◌};
ghost use Rattle.std.specs.Option.{option_copied};
ghost use Rattle.script.specs.Pending.{added, fed, begun};

use crate::kept::Kept;
use std::marker::Model;
use std::mem;

// A line that is being read: its bytes so far, or nothing once it has more than 80.
#[derive(Clone, Copy, PartialEq, Eq, Debug)]
pub struct Pending {
    line: Option<Kept>,
}

impl Model for Pending {
    ghost Value = { Option (List ℕ) };

    ghost view = { λ p. p.line };

    ghost inverse = { λ line. record { line = line } };
}

impl Pending {
    // No byte of the line has come yet.
    pub fn new() -> Pending
        ensures { result ≡ Some [] }
    {
        Pending {
            line: Some(Kept::new()),
        }
    }

    // One byte more.
    pub fn add(&mut self, byte: u8)
        ensures { self.new ≡ added self.old byte }
    {
        if let Some(kept) = &mut self.line {
            if kept.is_full() {
                self.line = None;
            } else {
                kept.push(byte);
            }
        }
    }

    // One byte of the input: a line end (byte 10) gives the line that it ends, and the next line begins.
    pub fn feed(&mut self, byte: u8) -> Option<Pending>
        ensures next { self.new ≡ fed self.old byte }
        ensures ended { MatchOption result ((byte == 10) ≡ false) (λ line. ((byte == 10) ≡ true) × (line ≡ self.old)) }
    {
        if byte != b'\n' {
            self.add(byte);
            return None;
        }
        Some(mem::replace(self, Pending::new()))
    }

    // The line, or nothing where it has more than 80 bytes.
    pub fn line(&self) -> Option<&[u8]>
        ensures { option_copied result ≡ self.now }
    {
        self.line.as_ref().map(|kept| kept.as_slice())
    }

    // Whether a byte of the line has come.
    pub fn is_begun(&self) -> bool
        ensures { result ≡ begun self.now }
    {
        !matches!(self.line(), Some([]))
    }
}
