#![tactic(auto)]

pub mod bridge;
mod carries_bridge;
mod carries_chess;
pub mod chess;
pub mod fault;
mod figures;
pub mod game;
mod imps;
mod laws;
mod line;
mod pair;
pub mod scoring;
pub mod section;
pub mod sheet;
pub mod sums;

pub use bridge::{Bridge, BridgeScoring};
pub use carries_bridge::carries_bridge_rule;
pub use carries_chess::carries_chess_rule;
pub use chess::{Chess, ChessScoring};
pub use fault::{Cause, Fault};
pub use game::Game;
pub use laws::section_laws;
pub use scoring::Scoring;
pub use section::Section;
pub use sheet::Sheet;
pub use sums::line_sum;
