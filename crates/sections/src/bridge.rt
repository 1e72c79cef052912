ghost use Rattle.std.specs.Prelude.{◌≡◌, true};
ghost use Rattle.sections.specs.Bridge.{bridge, both_imps, is_amount};
ghost use Rattle.sections.specs.BridgePlays.{bridge_plays, bridge_amounts};
ghost use Rattle.std.proofs.Common.{rules};

use crate::imps::both_imps;
use crate::scoring::Scoring;
use crate::sheet::Sheet;
use common::limits::LARGEST_AMOUNT;

// A sheet of IMPs.
pub type Bridge = Sheet<BridgeScoring>;

// The scoring of bridge: IMPs may be owed, so that every figure covers every debit.
#[derive(Clone, Copy, Debug, PartialEq, Eq)]
pub struct BridgeScoring;

impl Scoring for BridgeScoring {
    ghost rule = { bridge };

    ghost gains = { both_imps };

    ghost is_amount = { is_amount };

    ghost covers = { λ figure amount. true };

    ghost lawful = { Prim.search rules };

    ghost plays = { bridge_plays };

    ghost small = { bridge_amounts };

    fn gains(r: i32) -> Option<(i32, i32)> {
        both_imps(r)
    }

    fn is_amount(amount: i32) -> bool {
        amount != 0 && (-LARGEST_AMOUNT..=LARGEST_AMOUNT).contains(&amount)
    }

    fn covers(_figure: i32, _amount: i32) -> bool {
        true
    }
}
