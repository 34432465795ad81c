// Where the next event stands: "The reader hands back the next twelve bytes as part of the caller's file".
ghost use Rattle.std.specs.Prelude.{◌≡◌, take, drop};
ghost use Rattle.trace.specs.Parts as parts;

use crate::sizes::EVENT_BYTES;

// Three cases of which none carries a value: an Option or a Result would be nested and say no more.
#[derive(Clone, Copy, PartialEq, Eq)]
pub enum Left {
    End,
    // Fewer than twelve bytes: R8.
    Partial,
    Event,
}

#[tactic(auto, unfolding(crate::specs::Parts::remaining))]
pub fn remaining(file: &[u8], at: usize) -> Left
    ensures { result ≡ parts.remaining file.now at }
{
    if file.len() <= at {
        return Left::End;
    }
    if file.len() - at < EVENT_BYTES {
        Left::Partial
    } else {
        Left::Event
    }
}

// Fewer than twelve bytes where the file ends before.
pub fn next(file: &[u8], at: usize) -> &[u8]
    ensures { result.now ≡ take 12 (drop at file.now) }
{
    let rest = &file[at.min(file.len())..];
    &rest[..rest.len().min(EVENT_BYTES)]
}
