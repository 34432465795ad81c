// An outcome as the groups of awaits see it.
#![tactic(auto)]

ghost use Rattle.std.specs.Prelude.{◌≡◌};
ghost use Rattle.replies.specs.Replies as replies;

use model::{Message, Outcome};

// What an action that is carried out can report. A `Result` of the protocol layer, one of the DPM or a misfit: as `Option<Result<(), E>>` each case
// would be named through three layers, `Some(Err(E::Failed(e)))`, so this enum is plainer.
#[derive(Clone, Copy)]
pub enum Reply {
    Done,
    // Any number: `Outcome::Failed`.
    Failed(u8),
    DpmFailed,
    Other,
}

pub fn reply_of(outcome: Outcome) -> Reply
    ensures { result ≡ replies.reply outcome }
{
    match outcome {
        Outcome::Done => Reply::Done,
        Outcome::Failed(e) => Reply::Failed(e),
        Outcome::DpmFailed => Reply::DpmFailed,
        _ => Reply::Other,
    }
}

// What an action that receives can report, as the Rust's `receive_message` does: a message or the protocol layer's error. None: a misfit.
pub fn heard_of(outcome: Outcome) -> Option<Result<Message, u8>>
    ensures { result ≡ replies.heard outcome }
{
    match outcome {
        Outcome::Message(message) => Some(Ok(message)),
        Outcome::Failed(e) => Some(Err(e)),
        _ => None,
    }
}
