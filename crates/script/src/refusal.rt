ghost use Rattle.std.specs.Prelude.{◌≡◌, Some};
ghost use Rattle.sections.specs.Codes.{fault_code};
ghost use Rattle.script.specs.Codes.{refusal_code};
ghost use Rattle.script.specs.Texts.{refusal_text};

use sections::Fault;
use std::error::Error;
use std::fmt;

// Why a line of a script is refused.
#[derive(Clone, Copy, PartialEq, Eq, Debug)]
pub enum Refusal {
    // the line is not well written
    Malformed,
    // the section does not admit what it asks
    Section(Fault),
}

impl From<Fault> for Refusal {
    ghost from_gives = { λ f r. refusal_code r ≡ fault_code f };

    fn from(f: Fault) -> Refusal {
        Refusal::Section(f)
    }
}

impl Refusal {
    // Number, cause and line. A triple, by which the contracts of all crates speak of a refusal.
    pub fn code(self) -> (u8, u8, u32)
        ensures { result ≡ refusal_code self }
    {
        match self {
            Refusal::Malformed => (27, 0, 0),
            Refusal::Section(f) => f.code(),
        }
    }
}

// The line that tells a refusal, without its end.
impl fmt::Display for Refusal {
    ghost output = { λ x. Some (refusal_text (refusal_code x)) };

    fn fmt<W: fmt::Write>(&self, f: &mut fmt::Formatter<W>) -> fmt::Result {
        let (number, cause, line) = self.code();
        write!(f, "no\t{number}\t{cause}\t{line}")
    }
}

impl Error for Refusal {}
