// The swaps that are not handed over, as in src/source/policy_engine/mod.rs of usbpd 3.0.0.
#![tactic(auto)]

mod answers;
mod data;
mod fast;
mod vconn;

pub use data::execute_data_role_swap_state;
pub use fast::execute_fast_power_role_swap_state;
pub use vconn::execute_vconn_swap_state;
