// What a log is made of, and what is held of it.
use model::{Action, Contract, Outcome, Settings};
use request::PowerSource;

#[derive(Clone, Copy)]
pub enum Entry {
    Creation(Settings),
    Outcome(Outcome),
    // Target and mode change: any numbers, of which no enum has all (R6).
    ReEntry(u8, u16),
    Action(Action),
}

// The newest entries, as far as a rule asks for them.
#[derive(Clone, Copy)]
pub enum Newest {
    // Action 1
    Reset,
    // Action 4
    Capabilities,
    // Action 4, and its Done
    CapabilitiesDone,
    // Action 9, and its request
    Supply(PowerSource),
    Other,
}

#[derive(Clone, Copy)]
pub struct Reading {
    pub contract: Contract,
    pub hard: u8,
    pub caps: u8,
    pub newest: Newest,
}

// A count past 255, which no log of a run has: a count never passes its limit.
#[derive(Clone, Copy, PartialEq, Eq)]
pub struct TooMany;
