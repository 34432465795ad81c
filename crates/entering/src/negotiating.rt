// Entering NegotiateCapability and TransitionSupply, the two states that hold a request: PD 3.2 Sec. 8.3.3.2.4 and 8.3.3.2.5.
ghost use Rattle.std.specs.Prelude.{◌≡◌};
ghost use Rattle.definition.specs.Next.{negotiating};
ghost use Rattle.definition.specs.Actions as issuing;
ghost use Rattle.definition.specs.SourcePort.{denial_type};
ghost use Rattle.definition.specs.Moves.{onward};
ghost use Rattle.definition.specs.Entering as entering;
ghost use Rattle.definition.specs.Engine.{come, settle};
ghost use Rattle.model.specs.declared.place.Negotiation.{Negotiation};
ghost use Rattle.model.specs.declared.place.Place.{Place};
ghost use Rattle.model.specs.declared.place.State.{State};
ghost use Rattle.entering.specs.Steps.{waiting};

use crate::standing::{finish, stand, stop, waits};
use model::{Action, Contract, Denial, Negotiation, Onward, Place, Record, State, Step};
use records::{at, with_contract};
use request::PowerSource;

fn holding(record: Record, wait: Negotiation, request: PowerSource, awaited: Action) -> Step<Record>
    ensures { result ≡ waiting (entering.at (Place.Negotiating wait request) «record») awaited issuing.none }
{
    waits(at(record, Place::Negotiating(wait, request)), awaited)
}

fn contracted(
    record: Record,
    wait: Negotiation,
    request: PowerSource,
    contract: Contract,
    awaited: Action,
) -> Step<Record>
    ensures { result ≡ waiting (entering.at (Place.Negotiating wait request) (entering.with_contract contract «record»)) awaited issuing.none }
{
    waits(
        with_contract(record, Place::Negotiating(wait, request), contract),
        awaited,
    )
}

// A function for each await, as the definition has a row for each: `look_up` and `evaluate` differ in two names alone.
#[tactic(auto, unfolding(definition::specs::Engine::tell))]
fn look_up(record: Record, request: PowerSource) -> Step<Record>
    ensures { result ≡ come «record» (Place.Negotiating Negotiation.Lookup request) }
{
    holding(
        record,
        Negotiation::Lookup,
        request,
        actions::action_on(model::LOOK_UP, request),
    )
}

#[tactic(auto, unfolding(definition::specs::Engine::tell))]
fn evaluate(record: Record, request: PowerSource) -> Step<Record>
    ensures { result ≡ come «record» (Place.Negotiating Negotiation.Evaluate request) }
{
    holding(
        record,
        Negotiation::Evaluate,
        request,
        actions::action_on(model::EVALUATE, request),
    )
}

#[tactic(auto, unfolding(definition::specs::Engine::tell))]
fn accept(record: Record, request: PowerSource) -> Step<Record>
    ensures { result ≡ come «record» (Place.Negotiating Negotiation.Accept request) }
{
    holding(
        record,
        Negotiation::Accept,
        request,
        actions::send_control(model::ACCEPT),
    )
}

// "action 9 sets TransitionToExplicit"
#[tactic(auto, unfolding(definition::specs::Engine::tell))]
fn transition_power(record: Record, request: PowerSource) -> Step<Record>
    ensures { result ≡ come «record» (Place.Negotiating Negotiation.Supply request) }
{
    contracted(
        record,
        Negotiation::Supply,
        request,
        Contract::TransitionToExplicit,
        actions::action_on(model::SUPPLY_TO_REQUEST, request),
    )
}

// "its Done sets Explicit of its request": before PS_RDY is sent, and not after.
#[tactic(auto, unfolding(definition::specs::Engine::tell))]
fn ps_rdy(record: Record, request: PowerSource) -> Step<Record>
    ensures { result ≡ come «record» (Place.Negotiating Negotiation.PsRdy request) }
{
    contracted(
        record,
        Negotiation::PsRdy,
        request,
        Contract::Explicit(request),
        actions::send_control(model::PS_RDY),
    )
}

// Only Unknown is looked up.
pub fn negotiate_capability(record: Record, request: PowerSource) -> Step<Record>
    ensures { result ≡ come «record» (negotiating request) }
{
    match request {
        PowerSource::Unknown(_) => look_up(record, request),
        _ => evaluate(record, request),
    }
}

// Not by `enter`, which knows the action: called twice it is no longer compiled into its caller (docs/DECISIONS.md, 118).
fn denial_type(denial: Denial) -> u8
    ensures { result ≡ denial_type denial }
{
    match denial {
        Denial::Reject => model::REJECT,
        Denial::Wait => model::WAIT,
    }
}

#[tactic(auto, unfolding(definition::specs::Engine::tell, definition::specs::States::await_of))]
fn deny(record: Record, denial: Denial) -> Step<Record>
    ensures { result ≡ come «record» (Place.Waiting (State.CapabilityResponse denial)) }
{
    stand(
        record,
        State::CapabilityResponse(denial),
        actions::send_control(denial_type(denial)),
    )
}

#[tactic(auto, unfolding(definition::specs::Engine::tell, definition::specs::States::await_of))]
pub fn ready(record: Record) -> Step<Record>
    ensures { result ≡ come «record» (Place.Waiting State.Ready) }
{
    stand(
        record,
        State::Ready,
        awaiting::ready_wait(record.mode, actions::is_pps(record.contract)),
    )
}

// The request stays where it is, unless its lookup retypes it.
pub fn carry_on(record: Record, request: PowerSource, decided: Onward) -> Step<Record>
    ensures { result ≡ settle 5 «record» (onward request decided) }
{
    match decided {
        Onward::Evaluate(retyped) => evaluate(record, retyped),
        Onward::Accept => accept(record, request),
        Onward::Deny(denial) => deny(record, denial),
        Onward::Supply => transition_power(record, request),
        Onward::PsRdy => ps_rdy(record, request),
        Onward::Ready => ready(record),
        Onward::Stop(e) => stop(record, e),
        Onward::Finish(result) => finish(record, result),
        Onward::Misfit => refusals::refuse(record, 5),
    }
}
