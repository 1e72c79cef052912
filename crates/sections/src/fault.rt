ghost use Rattle.std.specs.Prelude.{◌≡◌};
ghost use Rattle.sections.specs.Codes.{cause_number, fault_code};

// Why a section does not admit a call, by its number.
#[derive(Clone, Copy, PartialEq, Eq, Debug)]
pub enum Cause {
    // the result of an entry is none that the section knows
    BadResult = 1,
    // a new figure would leave the range
    OutOfRange = 2,
    // an amount is none that a slip may carry
    BadAmount = 3,
    // a debit is more than the line has
    TooLittle = 4,
    // a line is above 31, or the two lines of an entry are equal
    BadLines = 9,
}

// A refusal of a section: why, and at which line.
#[derive(Clone, Copy, PartialEq, Eq, Debug)]
pub struct Fault {
    pub cause: Cause,
    pub line: u32,
}

impl From<Cause> for u8 {
    ghost from_gives = { λ cause number. number ≡ cause_number cause };

    fn from(cause: Cause) -> u8 {
        cause as u8
    }
}

impl Cause {
    // The number by which the cause is told.
    pub fn number(self) -> u8
        ensures { result ≡ cause_number self }
    {
        u8::from(self)
    }
}

impl Fault {
    pub(crate) fn new(cause: Cause, line: u32) -> Fault
        ensures { result ≡ record { cause = cause; line = line } }
    {
        Fault { cause, line }
    }

    // Number, cause and line, as a refusal is told. A triple, by which the contracts of all crates speak of a refusal.
    pub fn code(self) -> (u8, u8, u32)
        ensures { result ≡ fault_code self }
    {
        (6, u8::from(self.cause), self.line)
    }
}
