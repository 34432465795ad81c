// "A bad event is an unknown code, a field outside the range named here, or an unused field that is not zero."
ghost use Rattle.std.specs.Prelude.{◌≡◌};
ghost use Rattle.reasons.specs.Event as reasons;

use events::Fields;

// The first field that is bad, with what it may be: `a` from and to, the others up to.
#[derive(Clone, Copy, PartialEq, Eq)]
pub enum EventReason {
    // Not twelve bytes.
    Partial,
    Code,
    A(u8, u8),
    B(u16),
    First(u32),
    // It is not used.
    Second,
}

#[tactic(auto, unfolding(crate::specs::Event::one_word))]
fn one_word(e: Fields) -> Result<(), EventReason>
    ensures { result ≡ reasons.one_word e.second }
{
    if e.second != 0 {
        return Err(EventReason::Second);
    }
    Ok(())
}

#[tactic(auto, unfolding(crate::specs::Event::no_word))]
fn no_word(e: Fields) -> Result<(), EventReason>
    ensures { result ≡ reasons.no_word e.first e.second }
{
    if e.first != 0 {
        return Err(EventReason::First(0));
    }
    one_word(e)
}

#[tactic(auto, unfolding(crate::specs::Event::unused))]
fn unused(e: Fields) -> Result<(), EventReason>
    ensures { result ≡ reasons.unused e.b e.first e.second }
{
    if e.b != 0 {
        return Err(EventReason::B(0));
    }
    no_word(e)
}

// The codes that use `a` alone.
#[tactic(auto, unfolding(crate::specs::Event::within))]
fn within(e: Fields, least: u8, most: u8) -> Result<(), EventReason>
    ensures { result ≡ reasons.within e.a least most (reasons.unused e.b e.first e.second) }
{
    if e.a < least || most < e.a {
        return Err(EventReason::A(least, most));
    }
    unused(e)
}

// "b: 0 bad payload, else kind plus 1"; "A request's second word is used by kind 5 only."
#[tactic(auto, unfolding(crate::specs::Event::request))]
fn request(e: Fields) -> Result<(), EventReason>
    ensures { result ≡ reasons.request e.b e.first e.second }
{
    match e.b {
        0 => no_word(e),
        1..=5 => one_word(e),
        6 => Ok(()),
        _ => Err(EventReason::B(6)),
    }
}

#[tactic(auto, unfolding(crate::specs::Event::control))]
fn control(e: Fields) -> Result<(), EventReason>
    ensures { result ≡ reasons.control e.b e.first e.second }
{
    if e.b > 31 {
        return Err(EventReason::B(31));
    }
    no_word(e)
}

#[tactic(auto, unfolding(crate::specs::Event::extended_type))]
fn extended_type(e: Fields) -> Result<(), EventReason>
    ensures { result ≡ reasons.extended_type e.first e.second }
{
    if e.first > 255 {
        return Err(EventReason::First(255));
    }
    one_word(e)
}

// Of the messages with "b: 0 or 1", 0 has no word.
#[tactic(auto, unfolding(crate::specs::Event::message, crate::specs::Event::payload))]
fn message(e: Fields) -> Result<(), EventReason>
    ensures { result ≡ reasons.message e.a e.b e.first e.second }
{
    match (e.a, e.b) {
        (0 | 1, _) => request(e),
        (3, _) => control(e),
        (5, _) => unused(e),
        (2, 1) => one_word(e),
        (4, 1) => extended_type(e),
        (2 | 4, 0) | (6 | 7, 0 | 1) => no_word(e),
        (2 | 4 | 6 | 7, _) => Err(EventReason::B(1)),
        _ => Err(EventReason::A(0, 7)),
    }
}

#[tactic(auto, unfolding(crate::specs::Event::of_fields))]
fn of_fields(e: Fields) -> Result<(), EventReason>
    ensures { result ≡ reasons.of_fields e.code e.a e.b e.first e.second }
{
    match e.code {
        1 | 3 | 4 => within(e, 0, 0),
        2 => unused(e),
        5 => message(e),
        6 => within(e, 0, 5),
        7 => within(e, 0, 2),
        8 => within(e, 0, 1),
        9 => within(e, 0, 8),
        10 => within(e, 1, 3),
        11 => no_word(e),
        _ => Err(EventReason::Code),
    }
}

#[tactic(auto, unfolding(crate::specs::Event::of_event, events::specs::Fields::split))]
pub fn of_event(event: &[u8]) -> Result<(), EventReason>
    ensures { result ≡ reasons.of_event event.now }
{
    let Ok(e) = Fields::try_from(event) else {
        return Err(EventReason::Partial);
    };
    of_fields(e)
}
