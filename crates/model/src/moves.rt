// What an outcome or a target decides.
use crate::place::{DataRole, Denial, Finish, Handover, Mode, State, VcsSwapSource};
use request::PowerSource;

// What changes once the DPM reports success.
#[derive(Clone, Copy)]
pub enum Change {
    DataRole(DataRole),
    // Document 02, order 6: written under Standard.
    VconnSource(bool),
}

#[derive(Clone, Copy)]
pub enum Move {
    To(State),
    // A new request: look it up or evaluate it.
    Negotiate(PowerSource),
    // Ready, once this has changed.
    ReadyAs(Change),
    // VCONN is on, and PS_RDY has to say so.
    SendPsRdy(VcsSwapSource),
    // H.8, with VCONN on or off.
    DiscoverCable(bool),
    // Any number: `Outcome::Failed`.
    Stop(u8),
    Finish(Finish),
    HandOver(Handover),
    // The outcome does not fit the awaited action (R5), or the target is not allowed (R6).
    Misfit,
}

// Where to go, and what is written on the way, before what entering the place writes: the mode, kept or changed.
#[derive(Clone, Copy)]
pub struct Decided {
    pub mode: Mode,
    pub then: Move,
}

// What an outcome decides while a request is negotiated: the request stays where it is, unless its lookup retypes it.
#[derive(Clone, Copy)]
pub enum Onward {
    Evaluate(PowerSource),
    Accept,
    Deny(Denial),
    Supply,
    PsRdy,
    Ready,
    // Any number: `Outcome::Failed`.
    Stop(u8),
    Finish(Finish),
    Misfit,
}
