// One entry more.
ghost use Rattle.std.specs.Prelude.{◌≡◌};
ghost use Rattle.log_reader.specs.Reading as reading;

use crate::counts::{caps_after, hard_after, is_reset};
use crate::entries::{Entry, Newest, Reading, TooMany};
use model::{Action, Contract};
use replies::Reply;
use request::PowerSource;

#[tactic(auto, unfolding(crate::specs::Reading::contract_after))]
fn contract_after(number: u8, newest: Newest, contract: Contract) -> Contract
    ensures { result ≡ reading.contract_after number newest contract }
{
    match number {
        model::WAIT_FOR_VBUS => if is_reset(newest) {
            Contract::Safe5V
        } else {
            contract
        },
        model::SUPPLY_TO_REQUEST => Contract::TransitionToExplicit,
        _ => contract,
    }
}

fn supply_of(request: Option<PowerSource>) -> Newest
    ensures { result ≡ reading.supply_of request }
{
    request.map_or(Newest::Other, Newest::Supply)
}

#[tactic(auto, unfolding(crate::specs::Reading::newest_action))]
fn newest_action(number: u8, request: Option<PowerSource>) -> Newest
    ensures { result ≡ reading.newest_action number request }
{
    match number {
        model::PROTOCOL_RESET => Newest::Reset,
        model::SEND_CAPABILITIES => Newest::Capabilities,
        model::SUPPLY_TO_REQUEST => supply_of(request),
        _ => Newest::Other,
    }
}

fn contract_done(newest: Newest, contract: Contract) -> Contract
    ensures { result ≡ reading.contract_done newest contract }
{
    match newest {
        Newest::Supply(request) => Contract::Explicit(request),
        _ => contract,
    }
}

fn newest_done(newest: Newest) -> Newest
    ensures { result ≡ reading.newest_done newest }
{
    match newest {
        Newest::Capabilities => Newest::CapabilitiesDone,
        _ => Newest::Other,
    }
}

// What `records` writes for a new record too: the reader knows no engine state, and shares none of its code.
fn created(swapped: bool) -> Contract
    ensures { result ≡ reading.created swapped }
{
    if swapped {
        Contract::Implicit
    } else {
        Contract::Safe5V
    }
}

#[tactic(auto, unfolding(crate::specs::Reading::held))]
fn hold(contract: Contract, hard: u16, caps: u16, newest: Newest) -> Result<Reading, TooMany>
    ensures { result ≡ reading.held (record { contract = contract; hard = hard; caps = caps; newest = newest }) }
{
    if hard <= 255 && caps <= 255 {
        Ok(Reading {
            contract,
            hard: hard as u8,
            caps: caps as u8,
            newest,
        })
    } else {
        Err(TooMany)
    }
}

#[tactic(auto, unfolding(crate::specs::Reading::after_action))]
fn read_action(before: Reading, action: Action) -> Result<Reading, TooMany>
    ensures { result ≡ reading.held (reading.after_action before action) }
{
    let number = action.number;
    let newest = before.newest;
    hold(
        contract_after(number, newest, before.contract),
        hard_after(number, newest, before.hard),
        caps_after(number, action.argument, newest, before.caps),
        newest_action(number, action.request),
    )
}

fn unchanged(before: Reading, contract: Contract, newest: Newest) -> Result<Reading, TooMany>
    ensures { result ≡ reading.held (record { contract = contract; hard = before.hard; caps = before.caps; newest = newest }) }
{
    hold(
        contract,
        u16::from(before.hard),
        u16::from(before.caps),
        newest,
    )
}

fn read_reply(before: Reading, reply: Reply) -> Result<Reading, TooMany>
    ensures { result ≡ reading.held (reading.after_reply before reply) }
{
    let contract = before.contract;
    let newest = before.newest;
    match reply {
        Reply::Done => unchanged(before, contract_done(newest, contract), newest_done(newest)),
        _ => unchanged(before, contract, Newest::Other),
    }
}

// Before the first entry.
pub fn begin() -> Reading
    ensures { result ≡ reading.first }
{
    Reading {
        contract: Contract::Safe5V,
        hard: 0,
        caps: 0,
        newest: Newest::Other,
    }
}

// What the log reads once this entry is added.
pub fn read(before: Reading, entry: Entry) -> Result<Reading, TooMany>
    ensures { result ≡ reading.held (reading.after before entry) }
{
    let contract = before.contract;
    match entry {
        Entry::Creation(settings) => unchanged(
            before,
            created(settings.role_swapped),
            Newest::Other,
        ),
        Entry::Outcome(outcome) => read_reply(before, replies::reply_of(outcome)),
        Entry::ReEntry(_, _) => unchanged(before, contract, Newest::Other),
        Entry::Action(action) => read_action(before, action),
    }
}
