ghost use Rattle.std.specs.Prelude.{◌≡◌, int_le};
ghost use Rattle.sections.specs.Chess.{chess, half_points, is_amount};
ghost use Rattle.sections.specs.ChessPlays.{chess_plays, chess_amounts};
ghost use Rattle.std.proofs.Common.{rules};

use crate::game::Game;
use crate::scoring::Scoring;
use crate::sheet::Sheet;
use common::limits::LARGEST_AMOUNT;

// A sheet of half points.
pub type Chess = Sheet<ChessScoring>;

// The scoring of chess.
#[derive(Clone, Copy, Debug, PartialEq, Eq)]
pub struct ChessScoring;

impl Scoring for ChessScoring {
    ghost rule = { chess };

    ghost gains = { half_points };

    ghost is_amount = { is_amount };

    ghost covers = { λ figure amount. int_le amount figure };

    ghost lawful = { Prim.search rules };

    ghost plays = { chess_plays };

    ghost small = { chess_amounts };

    fn gains(r: i32) -> Option<(i32, i32)> {
        let game = Game::try_from(r).ok()?;
        Some(game.half_points())
    }

    fn is_amount(amount: i32) -> bool {
        (1..=LARGEST_AMOUNT).contains(&amount)
    }

    fn covers(figure: i32, amount: i32) -> bool {
        amount <= figure
    }
}
