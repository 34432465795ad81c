// The policy engine: create, step and re-entry, by value. src/source/policy_engine/mod.rs of usbpd 3.0.0.
#![tactic(auto)]

mod calls;

pub use calls::{create, re_enter, step, take};
