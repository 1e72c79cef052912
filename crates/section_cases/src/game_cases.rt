use sections::{Cause, Game};
use std::test::Fail;

#[test]
fn the_four_results_of_a_game(rt: HostRuntime) -> Result<(), Fail> {
    for (number, game, half_points) in [
        (0, Game::SecondWon, (0, 2)),
        (1, Game::Drawn, (1, 1)),
        (2, Game::FirstWon, (2, 0)),
        (3, Game::NobodyScored, (0, 0)),
    ] {
        assert_eq!(rt; Game::try_from(number), Ok(game));
        assert_eq!(rt; i32::from(game), number);
        assert_eq!(rt; game.half_points(), half_points);
    }
    for number in [-1, 4, i32::MIN, i32::MAX] {
        assert_eq!(rt; Game::try_from(number), Err(Cause::BadResult));
    }
    Ok(())
}
