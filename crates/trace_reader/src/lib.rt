// "The trace reader keeps the file and its place together": a struct that holds the file slice and an index, an iterator over the events, which are read
// on slice and number (`event_at`, `after`).
#![tactic(auto)]

ghost use Rattle.std.specs.Prelude.{◌≡◌, ◌-◌, length};
ghost use Rattle.std.specs.Iterator.{at_most};
ghost use Rattle.trace_reader.specs.Read as read;

use events::Malformed;
use model::Call;
use trace::Left;

#[derive(Clone, Copy)]
pub struct Reader<'a> {
    pub file: &'a [u8],
    pub at: usize,
}

// None at the end; a bad or partial event is Malformed (R8).
#[tactic(auto, unfolding(crate::specs::Read::event))]
pub fn event_at(file: &[u8], at: usize) -> Option<Result<Call, Malformed>>
    ensures { result ≡ read.event file.now at }
{
    match trace::remaining(file, at) {
        Left::End => None,
        Left::Partial => Some(Err(Malformed)),
        Left::Event => Some(events::decode(trace::next(file, at))),
    }
}

// The place itself where the sum would wrap: no file is so long, so the end stands there.
#[tactic(auto, unfolding(crate::specs::Read::after))]
pub fn after(at: usize) -> usize
    ensures { result ≡ read.after at }
{
    at.checked_add(trace::EVENT_BYTES).unwrap_or(at)
}

// At the first event, behind the header's eight bytes.
pub fn new<'a>(file: &'a [u8]) -> Reader<'a>
    ensures { (result.file ≡ file.entry) × (result.at ≡ 8) }
{
    Reader { file, at: 8 }
}

// The reader handed back, at the next event of the same file.
pub fn moved<'a>(r: Reader<'a>) -> Reader<'a>
    ensures { (result.file ≡ r.entry.file) × (result.at ≡ read.after r.entry.at) }
{
    let at = after(r.at);
    Reader { file: r.file, at }
}

impl<'a> Iterator for Reader<'a> {
    type Item = Result<Call, Malformed>;

    ghost next_gives = { λ r e q. (e ≡ read.event r.file.now r.at) × (q.file ≡ r.file) × (q.at ≡ read.after r.at) };

    ghost remaining = { λ r. at_most (length r.file.now - r.at) };

    // At the end the place moves on too, so that None comes again.
    #[tactic(auto, unfolding(crate::specs::Read::event, crate::specs::Read::after, trace::specs::Parts::remaining))]
    fn next(&mut self) -> Option<Result<Call, Malformed>> {
        let event = event_at(self.file, self.at);
        *self = moved(*self);
        event
    }
}
