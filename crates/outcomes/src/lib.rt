// What the awaits make of an outcome: the Rust's `.await?`, `.await.map_err(..)?` and `receive_message_type(..).await?`.
#![tactic(auto)]

mod deciding;

pub use deciding::{unless_timeout, when_asked, when_control, when_done, when_driven, when_sent};
