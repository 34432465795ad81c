// The states of `update_state` that ask for capabilities or give the other role's. src/source/policy_engine/mod.rs of usbpd 3.0.0.
#![tactic(auto)]

mod dual_role;
mod sink_cap;

pub use dual_role::{drp_get_source_cap, drp_give_sink_cap};
pub use sink_cap::get_sink_cap;
