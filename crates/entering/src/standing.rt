// Entering a state.
ghost use Rattle.std.specs.Prelude.{◌≡◌};
ghost use Rattle.definition.specs.Actions as issuing;
ghost use Rattle.definition.specs.Entering as entering;
ghost use Rattle.definition.specs.Entering.{at_state, started, with_contract, with_hard};
ghost use Rattle.counters.specs.Counting.{reset};
ghost use Rattle.definition.specs.Engine.{with_remaining, come};
ghost use Rattle.model.specs.declared.place.Place.{Place};
ghost use Rattle.model.specs.declared.place.State.{State};
ghost use Rattle.model.specs.declared.place.HardResetWait.{HardResetWait};
ghost use Rattle.model.specs.declared.place.Exchange.{Exchange};
ghost use Rattle.entering.specs.Steps.{waiting, resting, entry, awaits, by_entry};

use counters::{Exceeded, Increment};
use model::{
    Action, Answer, Contract, DisabledWait, Exchange, Finish, Handover, HardResetWait, Place,
    Record, StartupWait, State, Step,
};
use records::{at, started, with_caps, with_hard};

pub fn none() -> Action
    ensures { result ≡ issuing.none }
{
    actions::action(model::NONE, 0)
}

fn waits_with(record: Record, remaining: Option<u8>, awaited: Action) -> Step<Record>
    ensures { result ≡ with_remaining remaining (waiting «record» awaited issuing.none) }
{
    Step {
        record,
        answer: Answer::Waiting,
        remaining,
        actions: [awaited, none()],
    }
}

pub fn waits(record: Record, awaited: Action) -> Step<Record>
    ensures { result ≡ waiting «record» awaited issuing.none }
{
    waits_with(record, None, awaited)
}

// `self.protocol_layer.reset()`, and then the await.
fn resets_and_waits(record: Record, awaited: Action) -> Step<Record>
    ensures { result ≡ waiting «record» issuing.protocol_reset awaited }
{
    Step {
        record,
        answer: Answer::Waiting,
        remaining: None,
        actions: [actions::action(model::PROTOCOL_RESET, 0), awaited],
    }
}

fn rests_with(record: Record, place: Place, answer: Answer, remaining: Option<u8>) -> Step<Record>
    ensures { result ≡ with_remaining remaining (resting (entering.at place «record») answer) }
{
    Step {
        record: at(record, place),
        answer,
        remaining,
        actions: [none(), none()],
    }
}

fn rests(record: Record, place: Place, answer: Answer) -> Step<Record>
    ensures { result ≡ resting (entering.at place «record») answer }
{
    rests_with(record, place, answer, None)
}

#[tactic(auto, unfolding(definition::specs::Engine::tell))]
pub fn stop(record: Record, e: u8) -> Step<Record>
    ensures { result ≡ come «record» (Place.Stopped e) }
{
    rests(record, Place::Stopped(e), Answer::Stopped(e))
}

#[tactic(auto, unfolding(definition::specs::Engine::tell))]
pub fn finish(record: Record, res: Finish) -> Step<Record>
    ensures { result ≡ come «record» (Place.Finished res) }
{
    rests(record, Place::Finished(res), Answer::Finished(res))
}

#[tactic(auto, unfolding(definition::specs::Engine::tell))]
pub fn hand_over(record: Record, state: Handover) -> Step<Record>
    ensures { result ≡ come «record» (Place.HandedOver state) }
{
    rests(record, Place::HandedOver(state), Answer::HandedOver(state))
}

pub fn stand(record: Record, state: State, awaited: Action) -> Step<Record>
    ensures { result ≡ waiting (at_state state «record») awaited issuing.none }
{
    waits(at(record, Place::Waiting(state)), awaited)
}

fn reset_and_stand(record: Record, state: State, awaited: Action) -> Step<Record>
    ensures { result ≡ waiting (at_state state «record») issuing.protocol_reset awaited }
{
    resets_and_waits(at(record, Place::Waiting(state)), awaited)
}

// SPR, the capabilities count cleared, the protocol layer reset.
fn start_up(record: Record, wait: StartupWait, contract: Contract, awaited: Action) -> Step<Record>
    ensures { result ≡ waiting (at_state (State.Startup wait) (with_contract contract (started «record»))) issuing.protocol_reset awaited }
{
    resets_and_waits(
        started(record, Place::Waiting(State::Startup(wait)), contract),
        awaited,
    )
}

// PD 3.2 Sec. 8.3.3.2.1 (PE_SR_Startup)
#[tactic(auto, unfolding(definition::specs::Engine::tell, definition::specs::States::await_of))]
pub fn startup(record: Record, wait: StartupWait) -> Step<Record>
    ensures { result ≡ come «record» (Place.Waiting (State.Startup wait)) }
{
    match wait {
        StartupWait::SwapSourceStart => start_up(
            record,
            wait,
            record.contract,
            actions::action(model::TIMER, model::SWAP_SOURCE_START),
        ),
        StartupWait::SwappedVbus => stand(
            record,
            State::Startup(wait),
            actions::action(model::WAIT_FOR_VBUS, 0),
        ),
        StartupWait::Vbus => start_up(
            record,
            wait,
            Contract::Safe5V,
            actions::action(model::WAIT_FOR_VBUS, 0),
        ),
    }
}

// PD 3.2 Sec. 8.3.3.2.2 (PE_SRC_Discovery): if the CapsCounter saturates, enter the Disabled state (8.3.3.2.7).
#[tactic(auto, unfolding(definition::specs::Engine::tell, definition::specs::States::await_of))]
fn discovery(record: Record) -> Step<Record>
    ensures { result ≡ come «record» (Place.Waiting State.Discovery) }
{
    let tried = record.caps_counter.increment();
    let remaining = Some(counters::reported(tried));
    match tried {
        Ok(Increment { count, .. }) => waits_with(
            with_caps(record, Place::Waiting(State::Discovery), count),
            remaining,
            actions::action(model::TIMER, model::SOURCE_CAPABILITY),
        ),
        Err(Exceeded(_)) => waits_with(
            at(
                record,
                Place::Waiting(State::Disabled(DisabledWait::Supply)),
            ),
            remaining,
            actions::action(model::SUPPLY_SAFE_5V, 0),
        ),
    }
}

// PD 3.2 Sec. 8.3.3.2.3: when capabilities were sent successfully, reset the hard reset counter.
fn capabilities_sent(record: Record, awaited: Action) -> Step<Record>
    ensures { result ≡ waiting (at_state (State.SendCapabilities Exchange.Receive) (with_hard (reset «record».hard_reset_counter) «record»))
        awaited issuing.none }
{
    waits(
        with_hard(
            record,
            Place::Waiting(State::SendCapabilities(Exchange::Receive)),
            record.hard_reset_counter.reset(),
        ),
        awaited,
    )
}

// PD 3.2 Sec. 8.3.3.2.9 (PE_SRC_Hard_Reset): increment the HardResetCounter, then transmit Hard Reset Signaling.
#[tactic(auto, unfolding(definition::specs::Engine::tell, definition::specs::States::await_of))]
fn hard_reset(record: Record) -> Step<Record>
    ensures { result ≡ come «record» (Place.Waiting (State.HardReset HardResetWait.Signal)) }
{
    let tried = record.hard_reset_counter.increment();
    let remaining = Some(counters::reported(tried));
    match tried {
        Ok(Increment { count, .. }) => waits_with(
            with_hard(
                record,
                Place::Waiting(State::HardReset(HardResetWait::Signal)),
                count,
            ),
            remaining,
            actions::action(model::HARD_RESET_SIGNALLING, 0),
        ),
        Err(Exceeded(_)) => rests_with(
            record,
            Place::Finished(Finish::PortPartnerUnresponsive),
            Answer::Finished(Finish::PortPartnerUnresponsive),
            remaining,
        ),
    }
}

// How a state is entered: most only stand at their first await. Arms of `enter` itself would be plainer; tried, the goals of its default arm, which
// is reached in four ways, stayed open.
#[derive(Clone, Copy)]
pub enum Entry {
    Stand,
    ResetAndStand,
    Startup(StartupWait),
    Discovery,
    CapabilitiesSent,
    HardReset,
}

fn entry_of(state: State) -> Entry
    ensures { result ≡ entry state }
{
    match state {
        State::Startup(wait) => Entry::Startup(wait),
        State::Discovery => Entry::Discovery,
        State::SendCapabilities(Exchange::Receive) => Entry::CapabilitiesSent,
        State::HardReset(HardResetWait::Signal) => Entry::HardReset,
        State::SendSoftReset(Exchange::Transmit) | State::SoftReset => Entry::ResetAndStand,
        _ => Entry::Stand,
    }
}

fn awaited(record: Record, state: State) -> Action
    ensures { result ≡ awaits «record» state }
{
    awaiting::awaited(
        record.mode,
        actions::is_pps(record.contract),
        record.data_role,
        record.port.setting,
        state,
    )
}

pub fn enter(record: Record, state: State) -> Step<Record>
    ensures { result ≡ by_entry «record» state (entry state) }
{
    let awaited = awaited(record, state);
    match entry_of(state) {
        Entry::Stand => stand(record, state, awaited),
        Entry::ResetAndStand => reset_and_stand(record, state, awaited),
        Entry::Startup(wait) => startup(record, wait),
        Entry::Discovery => discovery(record),
        Entry::CapabilitiesSent => capabilities_sent(record, awaited),
        Entry::HardReset => hard_reset(record),
    }
}
