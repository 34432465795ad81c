// The record, what a call answers, and the actions that it issues.
use crate::place::{DataRole, Finish, Handover, Mode, Place};
use counters::Counter;
use request::PowerSource;

// src/lib.rs. Safe5V is `Contract::default()`, D in document 01.
#[derive(Clone, Copy)]
pub enum Contract {
    Safe5V,
    Implicit,
    TransitionToExplicit,
    Explicit(PowerSource),
    Invalid,
}

// Document 02, orders 5 and 6: whose word counts where the crate and PD 3.2 part. Under Standard a give answers by the message that asked, and it is
// remembered who feeds VCONN.
#[derive(Clone, Copy)]
pub enum Setting {
    Crate,
    Standard,
}

// What a record keeps of its creation; no call changes it.
#[derive(Clone, Copy)]
pub struct Port {
    pub dual_role: bool,
    pub vconn_source: bool,
    pub setting: Setting,
}

// What a record is created with.
#[derive(Clone, Copy)]
pub struct Settings {
    pub port: Port,
    pub role_swapped: bool,
    pub hard_limit: u8,
    pub caps_limit: u8,
}

#[derive(Clone, Copy)]
pub struct Record {
    pub place: Place,
    pub contract: Contract,
    pub hard_reset_counter: Counter,
    pub caps_counter: Counter,
    pub mode: Mode,
    // Written once swap_data_role is done, and nowhere else.
    pub data_role: DataRole,
    // Whether this port feeds VCONN now; `port` has what it was created with.
    pub vconn_source: bool,
    pub port: Port,
}

// Written number.argument; number 0 is the fixed none. Numbers, and not enums: a log may hold any action, and `log_reader::read` and `listing::line`
// answer for each.
#[derive(Clone, Copy)]
pub struct Action {
    pub number: u8,
    pub argument: u8,
    pub request: Option<PowerSource>,
}

#[derive(Clone, Copy)]
pub enum Answer {
    Waiting,
    // Any number: `Outcome::Failed`.
    Stopped(u8),
    Finished(Finish),
    HandedOver(Handover),
    // A number, and not an enum: `refusals::refuse` and `listing::line` answer for each.
    Refused(u8),
}

// What a call tells: of a record, or of the one that creation may have made.
#[derive(Clone, Copy)]
pub struct Step<R> {
    pub record: R,
    pub answer: Answer,
    // The attempts that remain before a bay gives up; only entering HardReset and Discovery says them.
    pub remaining: Option<u8>,
    pub actions: [Action; 2],
}

// A refused create has no record.
pub type Created = Step<Option<Record>>;
