ghost use Rattle.std.specs.Prelude.{◌≡◌};
ghost use Rattle.std.specs.Option.{option_map};
ghost use Rattle.sections.specs.Game.{number_of};
ghost use Rattle.script.specs.Letters.{letter_code, chess_result};

use sections::Game;

// The result of a game that a letter names. A `match` on `char` literals has the letters as they are typed.
fn game_of(letter: char) -> Option<Game>
    ensures { option_map number_of result ≡ letter_code letter }
{
    match letter {
        'w' => Some(Game::FirstWon),
        'd' => Some(Game::Drawn),
        'l' => Some(Game::SecondWon),
        'n' => Some(Game::NobodyScored),
        _ => None,
    }
}

// The number of a chess result, as `Section::enter` takes it: one letter, w, d, l or n. A function, as those for numbers.
pub fn read_letter(field: &[u8]) -> Option<i32>
    ensures { result ≡ chess_result field.now }
{
    match field {
        [letter] => game_of(char::from(*letter)).map(i32::from),
        _ => None,
    }
}
