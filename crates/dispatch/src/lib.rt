// `match_message_to_state` of src/source/policy_engine/mod.rs of usbpd 3.0.0: where a message that arrives in Ready leads, by the rows on the wall.
#![tactic(auto)]

mod rows;
mod search;

pub use rows::{Class, Condition, LAST, Next, Row, rule};
pub use search::{match_message_to_state, row_of};
