// From a call to its event: the inverse of `events`, by which decoding is proved (RoundTrip.antt), and with which a host can record a trace.
#![tactic(auto)]

ghost use Rattle.std.specs.Prelude.{◌≡◌};
ghost use Rattle.encoder.specs.Laid as laying;
ghost use Rattle.encoder.specs.Encoding as encoding;

use events::Fields;
use model::{Call, Message, Outcome};
use request::{Kind, PowerSource};

fn numbered(code: u8, a: u8) -> Fields
    ensures { result ≡ encoding.numbered code a }
{
    Fields {
        code,
        a,
        b: 0,
        first: 0,
        second: 0,
    }
}

fn heard(class: u8, b: u16, first: u32, second: u32) -> Fields
    ensures { result ≡ encoding.heard class b first second }
{
    Fields {
        code: 5,
        a: class,
        b,
        first,
        second,
    }
}

fn found_number(found: Option<Kind>) -> u8
    ensures { result ≡ encoding.found_number found }
{
    found.map_or(0, |kind| kind as u8)
}

// b: 0 of a bad payload, "else kind plus 1"
fn request_fields(class: u8, payload: Option<PowerSource>) -> Fields
    ensures { result ≡ encoding.request_fields class payload }
{
    match payload {
        None => heard(class, 0, 0, 0),
        Some(q) => heard(
            class,
            u16::from(request::kind_of(q)) + 1,
            request::first_word(q),
            request::second_word(q),
        ),
    }
}

fn message_fields(message: Message) -> Fields
    ensures { result ≡ encoding.message_fields message }
{
    match message {
        Message::Request(payload) => request_fields(0, payload),
        Message::EprRequest(payload) => request_fields(1, payload),
        Message::EprMode(None) => heard(2, 0, 0, 0),
        Message::EprMode(Some(word)) => heard(2, 1, word, 0),
        Message::Control(number) => heard(3, u16::from(number), 0, 0),
        Message::ExtendedControl(None) => heard(4, 0, 0, 0),
        Message::ExtendedControl(Some(number)) => { heard(4, 1, u32::from(number), 0) }
        Message::Other => heard(5, 0, 0, 0),
        Message::SinkCapabilities(good) => heard(6, u16::from(good), 0, 0),
        Message::EprSinkCapabilities(good) => heard(7, u16::from(good), 0, 0),
    }
}

fn outcome_fields(outcome: Outcome) -> Fields
    ensures { result ≡ encoding.outcome_fields outcome }
{
    match outcome {
        Outcome::Done => numbered(1, 0),
        Outcome::Failed(e) => numbered(2, e),
        Outcome::DpmFailed => numbered(3, 0),
        Outcome::NoSafe => numbered(4, 0),
        Outcome::Message(message) => message_fields(message),
        Outcome::Lookup(found) => numbered(6, found_number(found)),
        Outcome::Evaluation(response) => numbered(7, response as u8),
        Outcome::YesNo(answer) => numbered(8, u8::from(answer)),
        Outcome::Event(event) => numbered(9, event as u8),
        Outcome::Timeout(timeout) => numbered(10, timeout as u8),
    }
}

fn call_fields(call: Call) -> Fields
    ensures { result ≡ encoding.call_fields call }
{
    match call {
        Call::Outcome(outcome) => outcome_fields(outcome),
        Call::ReEntry(target, change) => Fields {
            b: change,
            ..numbered(11, target)
        },
    }
}

pub fn encode(call: Call) -> [u8; 12]
    ensures { result ≡ laying.laid (encoding.call_fields call) }
{
    let e = call_fields(call);
    let [b0, b1] = e.b.to_le_bytes();
    let [f0, f1, f2, f3] = e.first.to_le_bytes();
    let [s0, s1, s2, s3] = e.second.to_le_bytes();
    [e.code, e.a, b0, b1, f0, f1, f2, f3, s0, s1, s2, s3]
}
