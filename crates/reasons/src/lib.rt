// Why a trace is malformed (R8): the first thing in the order of the file that document 01 does not name. Beside the decoders and not in their errors, since
// they say R8 alone, and an event that is good pays for no reason; proofs/Exactly.antt has that the two agree.
#![tactic(auto)]

mod event;
mod header;

pub use event::{EventReason, of_event};
pub use header::{HeaderReason, of_header};
