// What the host reports of an awaited action.
use request::{Kind, PowerSource};

// The cases are document 01's classes 0 to 7; None is a bad payload. Types are numbers, and not an enum: `refusals::bad_event` answers for each, and
// a control type above 31 would be a bad event (R5).
#[derive(Clone, Copy)]
pub enum Message {
    Request(Option<PowerSource>),
    EprRequest(Option<PowerSource>),
    EprMode(Option<u32>),
    Control(u8),
    ExtendedControl(Option<u8>),
    Other,
    SinkCapabilities(bool),
    EprSinkCapabilities(bool),
}

#[derive(Clone, Copy)]
pub enum CapabilityResponse {
    Accept,
    Reject,
    Wait,
}

// In the order of Ready's match, which is not the order of the Rust's enum. None is the Rust's own case, and event 0 of
// document 01 and of the definition (`port.event`).
#[derive(Clone, Copy)]
pub enum Event {
    None,
    UpdatedSourceCapabilities,
    RequestSinkCapabilities,
    RequestSourceCapabilities,
    RequestEprSourceCapabilities,
    ExitEprMode,
    RequestVconnSwap,
    RequestDataRoleSwap,
    RequestPowerRoleSwap,
}

#[derive(Clone, Copy)]
pub enum Timeout {
    Pps = 1,
    KeepAlive,
    FiveSeconds,
}

// Ten cases, with the failures of each layer among them: no Result has them.
#[derive(Clone, Copy)]
pub enum Outcome {
    Done,
    // Any number, and not an enum of document 01's three: an event's `a` may be any byte, and `Stopped` hands it on.
    Failed(u8),
    DpmFailed,
    NoSafe,
    Message(Message),
    Lookup(Option<Kind>),
    Evaluation(CapabilityResponse),
    YesNo(bool),
    Event(Event),
    Timeout(Timeout),
}

// What is asked of a record.
#[derive(Clone, Copy)]
pub enum Call {
    Outcome(Outcome),
    // A target and a mode change, which may be any numbers (R6): no enum has them all.
    ReEntry(u8, u16),
}
