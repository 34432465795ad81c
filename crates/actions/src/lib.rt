// The actions of document 01, made; and what a contract says to the one that Ready awaits.
#![tactic(auto)]

mod contract;
mod making;

pub use contract::is_pps;
pub use making::{action, action_on, send_control};
