// The trace file of document 01: its header, and where the next event stands.
#![tactic(auto)]

mod beginning;
mod parts;
mod sizes;

pub use beginning::{BadHeader, header_of};
pub use parts::{Left, next, remaining};
pub use sizes::{EVENT_BYTES, HEADER_BYTES, MOST_BYTES};
