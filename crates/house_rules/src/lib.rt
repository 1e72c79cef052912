#![tactic(auto)]

pub mod colour;
pub mod phase;
pub mod slip;
pub mod station;
pub mod theorems;

pub use colour::Colour;
pub use phase::Phase;
pub use slip::{ColouredSlip, Slip};
pub use station::Station;
