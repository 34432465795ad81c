// The events of document 01's trace: from twelve bytes to the call that they stand for.
#![tactic(auto)]

mod decoding;
mod fields;

pub use decoding::{Malformed, decode};
pub use fields::Fields;
