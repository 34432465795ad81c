// Entering a place: what is written there, by `records`, which no other crate of the engine calls, and the actions that are issued.
#![tactic(auto)]

mod negotiating;
mod settling;
mod standing;

pub use negotiating::carry_on;
pub use settling::{begin, settle};
