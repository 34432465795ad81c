// From an event to the call that it stands for. A bad event is an unknown code, a field out of its range, or an unused field that is not zero.
ghost use Rattle.std.specs.Prelude.{◌≡◌, ◌≢◌, is_ok};
ghost use Rattle.notation.specs.Rows.{◌is◌};
ghost use Rattle.events.specs.Events as events;

use crate::fields::Fields;
use model::{Call, CapabilityResponse, Event, Message, Outcome, Timeout, UnknownCode};
use request::{
    Avs, Battery, EprRequestDataObject, FixedVariableSupply, Kind, PowerSource, Pps, RawDataObject,
};

// What document 01 does not name (R8).
#[derive(Clone, Copy, PartialEq, Eq)]
pub struct Malformed;

impl From<UnknownCode> for Malformed {
    ghost from_gives = { λ _ malformed. malformed ≡ record {} };

    fn from(_code: UnknownCode) -> Malformed {
        Malformed
    }
}

// "Unused fields, and words under b 0, are zero."
#[tactic(auto, unfolding(crate::specs::Events::all_zero))]
fn unused(b: u16, first: u32, second: u32) -> Result<(), Malformed>
    ensures { is_ok result ≡ events.all_zero b first second }
{
    if b == 0 && first == 0 && second == 0 {
        Ok(())
    } else {
        Err(Malformed)
    }
}

fn accept(e: Fields, outcome: Outcome) -> Result<Outcome, Malformed>
    ensures { events.reported result ≡ events.accept (events.unused e) outcome }
{
    unused(e.b, e.first, e.second)?;
    Ok(outcome)
}

// A message of no words.
fn hear(e: Fields, message: Message) -> Result<Message, Malformed>
    ensures { events.heard result ≡ events.hear (events.all_zero 0 e.first e.second) message }
{
    unused(0, e.first, e.second)?;
    Ok(message)
}

// A message of the first word.
fn hear_word(e: Fields, message: Message) -> Result<Message, Malformed>
    ensures { events.heard result ≡ events.hear (e.second is 0) message }
{
    if e.second != 0 {
        return Err(Malformed);
    }
    Ok(message)
}

// No TryFrom: nothing found is None, and an Option is the library's.
#[tactic(auto, unfolding(crate::specs::Events::found))]
fn found_of(a: u8) -> Result<Option<Kind>, Malformed>
    ensures { result ≡ events.found a }
{
    match a {
        0 => Ok(None),
        1 => Ok(Some(Kind::FixedSupply)),
        2 => Ok(Some(Kind::VariableSupply)),
        3 => Ok(Some(Kind::Battery)),
        4 => Ok(Some(Kind::Pps)),
        5 => Ok(Some(Kind::Avs)),
        _ => Err(Malformed),
    }
}

// A number that says no or yes, a bad payload or a good one. No TryFrom: bool is the language's.
#[tactic(auto, unfolding(crate::specs::Events::flag))]
fn flag_of(n: u16) -> Result<bool, Malformed>
    ensures { result ≡ events.flag n }
{
    match n {
        0 => Ok(false),
        1 => Ok(true),
        _ => Err(Malformed),
    }
}

fn named(e: Fields, source: PowerSource) -> Result<Option<PowerSource>, Malformed>
    ensures { result ≡ events.named (e.second is 0) (Some source) }
{
    if e.second != 0 {
        return Err(Malformed);
    }
    Ok(Some(source))
}

// b: 0 a bad payload, else kind plus 1. "A request's second word is used by kind 5 only."
#[tactic(auto, unfolding(crate::specs::Events::payload))]
fn payload_of(e: Fields) -> Result<Option<PowerSource>, Malformed>
    ensures { result ≡ events.payload e.b e.first e.second }
{
    match e.b {
        0 => {
            unused(0, e.first, e.second)?;
            Ok(None)
        }
        1 => named(
            e,
            PowerSource::FixedVariableSupply(FixedVariableSupply(e.first)),
        ),
        2 => named(e, PowerSource::Battery(Battery(e.first))),
        3 => named(e, PowerSource::Pps(Pps(e.first))),
        4 => named(e, PowerSource::Avs(Avs(e.first))),
        5 => named(e, PowerSource::Unknown(RawDataObject(e.first))),
        6 => Ok(Some(PowerSource::EprRequest(EprRequestDataObject {
            rdo: e.first,
            pdo: e.second,
        }))),
        _ => Err(Malformed),
    }
}

#[tactic(auto, unfolding(crate::specs::Events::epr_mode))]
fn epr_mode(e: Fields) -> Result<Message, Malformed>
    ensures { events.heard result ≡ events.epr_mode e.b e.first e.second }
{
    match e.b {
        0 => hear(e, Message::EprMode(None)),
        1 => hear_word(e, Message::EprMode(Some(e.first))),
        _ => Err(Malformed),
    }
}

// "b: type 0 to 31"
#[tactic(auto, unfolding(crate::specs::Events::control))]
fn control(e: Fields) -> Result<Message, Malformed>
    ensures { events.heard result ≡ events.control e.b e.first e.second }
{
    if e.b <= 31 {
        hear(e, Message::Control(e.b as u8))
    } else {
        Err(Malformed)
    }
}

// "first word: type 0 to 255"
#[tactic(auto, unfolding(crate::specs::Events::extended_type))]
fn extended_type(e: Fields) -> Result<Message, Malformed>
    ensures { events.heard result ≡ events.extended_type e.first e.second }
{
    let Ok(number) = u8::try_from(e.first) else {
        return Err(Malformed);
    };
    hear_word(e, Message::ExtendedControl(Some(number)))
}

#[tactic(auto, unfolding(crate::specs::Events::extended_control))]
fn extended_control(e: Fields) -> Result<Message, Malformed>
    ensures { events.heard result ≡ events.extended_control e.b e.first e.second }
{
    match e.b {
        0 => hear(e, Message::ExtendedControl(None)),
        1 => extended_type(e),
        _ => Err(Malformed),
    }
}

#[tactic(auto, unfolding(crate::specs::Events::message))]
fn message(e: Fields) -> Result<Message, Malformed>
    ensures { events.heard result ≡ events.message e.a e.b e.first e.second }
{
    match e.a {
        0 => Ok(Message::Request(payload_of(e)?)),
        1 => Ok(Message::EprRequest(payload_of(e)?)),
        2 => epr_mode(e),
        3 => control(e),
        4 => extended_control(e),
        5 => {
            unused(e.b, e.first, e.second)?;
            Ok(Message::Other)
        }
        6 => hear(e, Message::SinkCapabilities(flag_of(e.b)?)),
        7 => hear(e, Message::EprSinkCapabilities(flag_of(e.b)?)),
        _ => Err(Malformed),
    }
}

// The codes whose events have no field.
#[tactic(auto, unfolding(crate::specs::Events::bare))]
fn bare(e: Fields, outcome: Outcome) -> Result<Outcome, Malformed>
    ensures { events.reported result ≡ events.bare e outcome }
{
    if e.a != 0 {
        return Err(Malformed);
    }
    accept(e, outcome)
}

#[tactic(auto, unfolding(crate::specs::Events::call))]
fn outcome_of(e: Fields) -> Result<Outcome, Malformed>
    requires { e.code ≢ 11 }
    ensures { events.reported result ≡ events.call e }
{
    match e.code {
        1 => bare(e, Outcome::Done),
        2 => accept(e, Outcome::Failed(e.a)),
        3 => bare(e, Outcome::DpmFailed),
        4 => bare(e, Outcome::NoSafe),
        5 => Ok(Outcome::Message(message(e)?)),
        6 => accept(e, Outcome::Lookup(found_of(e.a)?)),
        7 => accept(e, Outcome::Evaluation(CapabilityResponse::try_from(e.a)?)),
        8 => accept(e, Outcome::YesNo(flag_of(u16::from(e.a))?)),
        9 => accept(e, Outcome::Event(Event::try_from(e.a)?)),
        10 => accept(e, Outcome::Timeout(Timeout::try_from(e.a)?)),
        _ => Err(Malformed),
    }
}

// Code 11 alone is a re-entry: "A re-entry's a and b may be any number (R6)".
#[tactic(auto, unfolding(crate::specs::Events::call))]
fn call_of(e: Fields) -> Result<Call, Malformed>
    ensures { result ≡ events.call e }
{
    if e.code == 11 {
        unused(0, e.first, e.second)?;
        return Ok(Call::ReEntry(e.a, e.b));
    }
    Ok(Call::Outcome(outcome_of(e)?))
}

#[tactic(auto, unfolding(crate::specs::Events::decoded, crate::specs::Fields::split))]
pub fn decode(event: &[u8]) -> Result<Call, Malformed>
    ensures { result ≡ events.decoded event.now }
{
    call_of(Fields::try_from(event)?)
}
