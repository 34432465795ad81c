// Where a record stands. The Rust's State, each case with the awaits inside it: an await is a resume point.
use request::PowerSource;

#[derive(Clone, Copy)]
pub enum Mode {
    Spr,
    Epr,
}

// src/lib.rs. The numbers of document 02: 0 Ufp, 1 Dfp.
#[derive(Clone, Copy)]
pub enum DataRole {
    Ufp,
    Dfp,
}

// A message is sent, and then its answer awaited.
#[derive(Clone, Copy)]
pub enum Exchange {
    Transmit,
    Receive,
}

// Startup with role_swap awaits its timer and then VBUS; without, VBUS alone.
#[derive(Clone, Copy)]
pub enum StartupWait {
    SwapSourceStart,
    SwappedVbus,
    Vbus,
}

#[derive(Clone, Copy)]
pub enum DisabledWait {
    Supply,
    Receive,
}

// The CapabilityResponse that is sent: Accept does not go to that state.
#[derive(Clone, Copy)]
pub enum Denial {
    Reject,
    Wait,
}

#[derive(Clone, Copy)]
pub enum HardResetWait {
    Signal,
    Timer,
}

#[derive(Clone, Copy)]
pub enum DefaultWait {
    VconnOff,
    HardReset,
    VconnOn,
}

// InformNone: after a timeout or a bad payload.
#[derive(Clone, Copy)]
pub enum SinkCapWait {
    Transmit,
    Receive,
    Inform,
    InformNone,
}

#[derive(Clone, Copy)]
pub enum GetWait {
    Get,
    Inform,
    InformNone,
}

#[derive(Clone, Copy)]
pub enum GiveWait {
    Read,
    Transmit,
}

// Send sends DR_Swap; Answer, the second await of that state, receives what answers it.
#[derive(Clone, Copy)]
pub enum DataRoleSwap {
    Evaluate,
    Accept,
    Change,
    Send,
    Answer,
    Reject,
}

// WaitSourceOn sends PS_RDY; SourceOn, the second await of that state, receives the partner's.
#[derive(Clone, Copy)]
pub enum FastPowerRoleSwap {
    Evaluate,
    Accept,
    TransitionToOff,
    AssertRd,
    WaitSourceOn,
    SourceOn,
}

// The power role swap is handed over.
#[derive(Clone, Copy)]
pub enum SwapState {
    Data(DataRoleSwap),
    FastPower(FastPowerRoleSwap),
}

#[derive(Clone, Copy)]
pub enum VcsSwapSource {
    Message,
    Epr,
}

// SendSwap sends the swap; SwapAnswer, the second await of that state, receives what answers it.
#[derive(Clone, Copy)]
pub enum VcsState {
    SendSwap,
    SwapAnswer,
    EvaluateSwap,
    AcceptSwap,
    RejectSwap,
    WaitForVconn,
    TurnOffVconn,
    TurnOnVconn,
    SendPsRdy,
    VcsForceVconn,
}

// The states that hold no request, each at one of its awaits.
#[derive(Clone, Copy)]
pub enum State {
    Startup(StartupWait),
    Discovery,
    SendCapabilities(Exchange),
    Ready,
    Disabled(DisabledWait),
    CapabilityResponse(Denial),
    HardReset(HardResetWait),
    HardResetReceived,
    TransitionToDefault(DefaultWait),
    GetSinkCap(SinkCapWait),
    WaitNewCapabilities,
    EprKeepAlive,
    // Which message asked: Get_Source_Cap or EPR_Get_Source_Cap.
    GiveSourceCap(Mode),
    SendSoftReset(Exchange),
    SoftReset,
    SendNotSupported,
    NotSupportedReceived,
    DrpSwap(SwapState),
    DrpGetSourceCap(Mode, GetWait),
    DrpGiveSinkCap(Mode, GiveWait),
    VconnSwap(VcsSwapSource, VcsState),
}

// The awaits of NegotiateCapability (Lookup, Evaluate) and of TransitionSupply (the others), the two states that hold a request.
#[derive(Clone, Copy)]
pub enum Negotiation {
    Lookup,
    Evaluate,
    Accept,
    Supply,
    PsRdy,
}

#[derive(Clone, Copy)]
pub enum Handover {
    // Document 01's numbers: 1 and 2 do not occur.
    PowerEvaluate = 3,
    PowerSend,
    EprEntry,
    EprExitReceived,
    EprSendExit,
    EprDiscoverCable,
}

#[derive(Clone, Copy)]
pub enum Finish {
    // Document 01's numbers, from 0 on.
    SwapToSink,
    PortPartnerUnresponsive,
    ReconnectionRequired,
    NoSafeRequest,
}

// One case alone carries the request, so that no other move copies it (docs/DECISIONS.md, "Where the request stands").
#[derive(Clone, Copy)]
pub enum Place {
    Waiting(State),
    Negotiating(Negotiation, PowerSource),
    // Any number: `Outcome::Failed`.
    Stopped(u8),
    HandedOver(Handover),
    Finished(Finish),
}
