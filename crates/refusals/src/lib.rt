// When a call is refused: R1, R5's bad events and R7; and what a refusal returns. R6 is `targets`', and their order stands in `policy_engine`.
#![tactic(auto)]

ghost use Rattle.std.specs.Prelude.{◌≡◌};
ghost use Rattle.definition.specs.Engine as engine;
ghost use Rattle.definition.specs.Refusals as refusals;

use counters::Counter;
use model::{
    Answer, Contract, Created, Message, Negotiation, Outcome, Place, Record, Settings, Step,
};
use request::PowerSource;

// "Each returns its number, no action and the old record"; creation has none to return.
pub fn refuse<R>(record: R, number: u8) -> Step<R>
    ensures { result ≡ engine.refuse number «record» }
{
    Step {
        record,
        answer: Answer::Refused(number),
        remaining: None,
        actions: [actions::action(model::NONE, 0); 2],
    }
}

// "create returns no record"; also where a trace has a bad header.
pub fn not_created(number: u8) -> Created
    ensures { result ≡ engine.not_created number }
{
    refuse(None, number)
}

#[tactic(auto, unfolding(definition::specs::Refusals::counted))]
fn counted(counter: Counter) -> bool
    ensures { result ≡ refusals.counted counter }
{
    0 < counter.max_value && counter.value <= counter.max_value
}

fn explicit_of(request: PowerSource, contract: Contract) -> bool
    ensures { result ≡ refusals.explicit_of request contract }
{
    match contract {
        Contract::Explicit(held) => request::equal(held, request),
        _ => false,
    }
}

fn contract_fits(wait: Negotiation, request: PowerSource, contract: Contract) -> bool
    ensures { result ≡ refusals.contract_fits wait request contract }
{
    match wait {
        Negotiation::Supply => matches!(contract, Contract::TransitionToExplicit),
        Negotiation::PsRdy => explicit_of(request, contract),
        _ => true,
    }
}

fn place_sound(place: Place, contract: Contract) -> bool
    ensures { result ≡ refusals.place_sound place contract }
{
    match place {
        Place::Negotiating(wait, request) => contract_fits(wait, request, contract),
        _ => true,
    }
}

// Not R1.
#[tactic(auto, unfolding(definition::specs::Refusals::sound))]
pub fn sound(record: Record) -> bool
    ensures { result ≡ refusals.sound «record» }
{
    counted(record.hard_reset_counter)
        && counted(record.caps_counter)
        && place_sound(record.place, record.contract)
}

// R5: "or would be a bad event".
pub fn bad_event(outcome: Outcome) -> bool
    ensures { result ≡ refusals.bad_event outcome }
{
    match outcome {
        Outcome::Message(Message::Control(message_type)) => 31 < message_type,
        _ => false,
    }
}

// R7.
#[tactic(auto, unfolding(definition::specs::Refusals::uncreatable))]
pub fn uncreatable(settings: Settings) -> bool
    ensures { result ≡ refusals.uncreatable settings }
{
    settings.hard_limit == 0
        || settings.caps_limit == 0
        || settings.role_swapped && !settings.port.dual_role
}
