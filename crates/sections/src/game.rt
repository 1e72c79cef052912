use crate::fault::Cause;

// What came of a game of chess between two lines, by its number.
#[derive(Clone, Copy, Debug, PartialEq, Eq)]
pub enum Game {
    SecondWon = 0,
    Drawn = 1,
    FirstWon = 2,
    NobodyScored = 3,
}

impl Game {
    ghost use Rattle.std.specs.Prelude.{◌≡◌, Some};
    ghost use Rattle.sections.specs.Chess.{half_points};
    ghost use Rattle.sections.specs.Game.{number_of};

    // The half points for the first and the second line.
    pub fn half_points(self) -> (i32, i32)
        ensures { half_points (number_of self) ≡ Some result }
    {
        match self {
            Game::SecondWon => (0, 2),
            Game::Drawn => (1, 1),
            Game::FirstWon => (2, 0),
            Game::NobodyScored => (0, 0),
        }
    }
}

impl TryFrom<i32> for Game {
    ghost use Rattle.sections.specs.Game.{ReadsGame};

    type Error = Cause;

    ghost try_from_gives = { ReadsGame };

    fn try_from(number: i32) -> Result<Game, Cause> {
        match number {
            0 => Ok(Game::SecondWon),
            1 => Ok(Game::Drawn),
            2 => Ok(Game::FirstWon),
            3 => Ok(Game::NobodyScored),
            _ => Err(Cause::BadResult),
        }
    }
}

impl From<Game> for i32 {
    ghost use Rattle.std.specs.Prelude.{◌≡◌};
    ghost use Rattle.sections.specs.Game.{number_of};

    ghost from_gives = { λ game number. number ≡ number_of game };

    fn from(game: Game) -> i32 {
        game as i32
    }
}
