ghost use Rattle.std.specs.Prelude.{◌≡◌};
ghost use Rattle.house_rules.specs.State.Colours.{other, differ};

// The colour of a station and of the slips that it posts: one before the station's turn in a count, the other after it.
#[derive(Clone, Copy, PartialEq, Eq, Debug)]
pub enum Colour {
    White,
    Red,
}

impl Colour {
    // The colour that a station has after its turn.
    pub fn other(self) -> Colour
        ensures { result ≡ other self }
    {
        match self {
            Colour::White => Colour::Red,
            Colour::Red => Colour::White,
        }
    }

    // Whether two colours are not the same.
    pub fn differs(self, from: Colour) -> bool
        ensures { result ≡ differ self from }
    {
        self != from
    }
}
