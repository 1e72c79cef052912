ghost use Rattle.std.specs.Prelude.{◌≡◌, ◌+◌, ◌-◌, ◌<◌, ◌≤◌, ◌↔◌, IsTrue, List, ℕ, [], ◌∷◌, ◌++◌, length, take, drop, replicate};
ghost use Rattle.script.specs.Pending.{longest_line};
ghost use Rattle.std.proofs.Common.{arith};
ghost use Rattle.std.proofs.lemmas.List.{length-take-le, take-append-drop};

use std::marker::Model;

// How many bytes of a line are kept.
const LONGEST_LINE: usize = 80;

// The bytes of a line, at most 80. No `ArrayVec`, which is not `Copy`: a `Pending`, which callers may copy,
// holds one.
#[derive(Clone, Copy, PartialEq, Eq, Debug)]
pub(crate) struct Kept {
    cells: [u8; LONGEST_LINE],
    len: usize,
}

impl Model for Kept {
    ghost Value = { List ℕ };

    ghost view = { λ k. take k.len k.cells };

    // a cell that is not in use is 0, so the bytes tell all cells
    ghost invariant = { λ k. (length k.cells ≡ longest_line) × (k.len ≤ longest_line) × (drop k.len k.cells ≡ replicate (longest_line - k.len) 0) };

    ghost inverse = { λ bytes. record { cells = bytes ++ replicate (longest_line - length bytes) 0; len = length bytes } };

    ghost inverse_ok = { λ k h.
        let used : length (take k.len k.cells) ≡ k.len = length-take-le k.len k.cells (Prim.omega arith) in
        Prim.rw (used, ← h.2, take-append-drop) };
}

impl Kept {
    pub(crate) fn new() -> Kept
        ensures { result ≡ [] }
    {
        Kept {
            cells: [0; LONGEST_LINE],
            len: 0,
        }
    }

    pub(crate) fn is_full(&self) -> bool
        ensures { IsTrue result ↔ (longest_line ≤ length self.now) }
    {
        self.len == LONGEST_LINE
    }

    #[tactic(auto, using(crate::proofs::Cells::one_cell_less, std::proofs::lemmas::Grind::common_steps))]
    pub(crate) fn push(&mut self, byte: u8)
        requires { length self.old < longest_line }
        ensures { self.new ≡ self.old ++ byte ∷ [] }
    {
        self.cells[self.len] = byte;
        self.len += 1;
    }

    pub(crate) fn as_slice(&self) -> &[u8]
        ensures { result.now ≡ self.now }
    {
        &self.cells[..self.len]
    }
}
