// Document 01, 'Reading the log', as a running reader: it takes the entries one by one and holds the contract and both counts.
// It knows no engine state.
#![tactic(auto)]

mod counts;
mod entries;
mod held;

pub use entries::{Entry, Newest, Reading, TooMany};
pub use held::{begin, read};
