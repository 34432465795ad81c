// The record, written anew: one function for each field that changes, beside the place, since each has a promise of its own; and a new one.
#![tactic(auto)]

ghost use Rattle.std.specs.Prelude.{◌≡◌};
ghost use Rattle.definition.specs.Entering as entering;

use counters::Counter;
use model::{Contract, DataRole, Mode, Place, Record, Setting, Settings, StartupWait, State};

pub fn at(record: Record, place: Place) -> Record
    ensures { result ≡ entering.at place «record» }
{
    Record { place, ..record }
}

pub fn with_contract(record: Record, place: Place, contract: Contract) -> Record
    ensures { result ≡ entering.at place (entering.with_contract contract «record») }
{
    Record {
        place,
        contract,
        ..record
    }
}

pub fn with_hard(record: Record, place: Place, hard: Counter) -> Record
    ensures { result ≡ entering.at place (entering.with_hard hard «record») }
{
    Record {
        place,
        hard_reset_counter: hard,
        ..record
    }
}

pub fn with_caps(record: Record, place: Place, caps: Counter) -> Record
    ensures { result ≡ entering.at place (entering.with_caps caps «record») }
{
    Record {
        place,
        caps_counter: caps,
        ..record
    }
}

pub fn with_mode(record: Record, mode: Mode) -> Record
    ensures { result ≡ entering.with_mode mode «record» }
{
    Record { mode, ..record }
}

pub fn with_data_role(record: Record, role: DataRole) -> Record
    ensures { result ≡ entering.with_data_role role «record» }
{
    Record {
        data_role: role,
        ..record
    }
}

// Document 02, order 6: "Under "crate" nothing changes".
fn remembered(setting: Setting, new: bool, old: bool) -> bool
    ensures { result ≡ entering.remembered setting new old }
{
    match setting {
        Setting::Crate => old,
        Setting::Standard => new,
    }
}

// Who feeds VCONN, once it is driven.
pub fn fed(record: Record, vconn_source: bool) -> Record
    ensures { result ≡ entering.fed vconn_source «record» }
{
    Record {
        vconn_source: remembered(record.port.setting, vconn_source, record.vconn_source),
        ..record
    }
}

// Startup sets SPR and resets the capabilities count, and never the hard count. Document 02, order 6: it "sets it back to its creation value".
pub fn started(record: Record, place: Place, contract: Contract) -> Record
    ensures { result ≡ entering.at place (entering.with_contract contract (entering.started «record»)) }
{
    let port = record.port;
    Record {
        place,
        contract,
        caps_counter: record.caps_counter.reset(),
        mode: Mode::Spr,
        vconn_source: remembered(port.setting, port.vconn_source, record.vconn_source),
        ..record
    }
}

pub fn first_wait(role_swapped: bool) -> StartupWait
    ensures { result ≡ entering.first_wait role_swapped }
{
    if role_swapped {
        StartupWait::SwapSourceStart
    } else {
        StartupWait::Vbus
    }
}

fn first_contract(role_swapped: bool) -> Contract
    ensures { result ≡ entering.first_contract role_swapped }
{
    if role_swapped {
        Contract::Implicit
    } else {
        Contract::Safe5V
    }
}

fn counter(max_value: u8) -> Counter
    ensures { (result.value ≡ 0) × (result.max_value ≡ max_value) }
{
    Counter {
        value: 0,
        max_value,
    }
}

// A new record, about to enter Startup.
pub fn blank(settings: Settings) -> Record
    ensures { result ≡ entering.blank settings }
{
    let port = settings.port;
    Record {
        place: Place::Waiting(State::Startup(first_wait(settings.role_swapped))),
        contract: first_contract(settings.role_swapped),
        hard_reset_counter: counter(settings.hard_limit),
        caps_counter: counter(settings.caps_limit),
        mode: Mode::Spr,
        data_role: DataRole::Dfp,
        vconn_source: port.vconn_source,
        port,
    }
}
