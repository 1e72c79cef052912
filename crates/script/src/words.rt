ghost use Rattle.std.specs.Prelude.{◌≡◌};
ghost use Rattle.script.specs.Words.{kind_of};

// The kinds of scoring that a script can name.
#[derive(Clone, Copy, PartialEq, Eq, Debug)]
pub enum Kind {
    Chess,
    Bridge,
}

// The section that a word names. A function and no `TryFrom<&[u8]>`, as those for letters and
// numbers: an error would say no more than `None`.
pub fn read_kind(word: &[u8]) -> Option<Kind>
    ensures { result ≡ kind_of word.now }
{
    match word {
        b"chess" => Some(Kind::Chess),
        b"bridge" => Some(Kind::Bridge),
        _ => None,
    }
}
