// `update_state` of src/source/policy_engine/mod.rs of usbpd 3.0.0: what each await of each state leads to.
#![tactic(auto)]

mod ready;
mod resets;
mod source_port;
mod updates;

pub use updates::update_state;
