// The calls: refusals in document 01's order, then the flow. A refusal hands the old record back whole.
ghost use Rattle.std.specs.Prelude.{◌≡◌};
ghost use Rattle.model.specs.declared.outcome.Call.{Call};
ghost use Rattle.definition.specs.Moves.{decided};
ghost use Rattle.definition.specs.Refusals.{re_entry};
ghost use Rattle.definition.specs.Engine as engine;
ghost use Rattle.policy_engine.specs.Rulings as rulings;
ghost use Rattle.policy_engine.specs.Rulings.{ruled};

use model::{
    Call, Created, Decided, Mode, Move, Negotiation, Outcome, Place, Record, Settings, State, Step,
};
use request::PowerSource;

// What is decided, and the number with which a misfit is refused: any, as `entering::settle` takes it.
#[derive(Clone, Copy)]
struct Ruling {
    number: u8,
    decided: Decided,
}

fn straight(number: u8, mode: Mode, then: Move) -> Ruling
    ensures { result ≡ rulings.straight number mode then }
{
    Ruling {
        number,
        decided: Decided { mode, then },
    }
}

fn outcome_rules(record: Record, state: State, outcome: Outcome) -> Ruling
    ensures { ruled «record» result ≡ rulings.at_state «record» state (Call.Outcome outcome) }
{
    if refusals::bad_event(outcome) {
        straight(5, record.mode, Move::Misfit)
    } else {
        Ruling {
            number: 5,
            decided: states::update_state(&record, state, outcome),
        }
    }
}

fn at_state(record: Record, state: State, call: Call) -> Ruling
    ensures { ruled «record» result ≡ rulings.at_state «record» state call }
{
    match call {
        Call::Outcome(outcome) => outcome_rules(record, state, outcome),
        Call::ReEntry(_, _) => straight(3, record.mode, Move::Misfit),
    }
}

#[tactic(auto, unfolding(definition::specs::Refusals::re_entry))]
fn re_entry_rules(handed_over: bool, mode: Mode, number: u8, change: u16) -> Ruling
    ensures { (result.number ≡ 6) × (decided result.decided ≡ re_entry handed_over mode number change) }
{
    Ruling {
        number: 6,
        decided: targets::re_entry(handed_over, mode, number, change),
    }
}

fn at_rest(handed_over: bool, record: Record, call: Call) -> Ruling
    ensures { ruled «record» result ≡ rulings.at_rest handed_over «record» call }
{
    match call {
        Call::Outcome(_) => straight(4, record.mode, Move::Misfit),
        Call::ReEntry(number, change) => re_entry_rules(handed_over, record.mode, number, change),
    }
}

fn rule(record: Record, place: Place, call: Call) -> Ruling
    ensures { ruled «record» result ≡ rulings.answered «record» place call }
{
    match place {
        Place::Waiting(state) => at_state(record, state, call),
        // `negotiating` answers there.
        Place::Negotiating(_, _) => straight(3, record.mode, Move::Misfit),
        Place::Stopped(_) => at_rest(false, record, call),
        Place::HandedOver(_) => at_rest(true, record, call),
        Place::Finished(_) => straight(2, record.mode, Move::Misfit),
    }
}

fn settle(record: Record, ruling: Ruling) -> Step<Record>
    ensures { result ≡ ruled «record» ruling }
{
    entering::settle(ruling.number, record, ruling.decided)
}

fn negotiating(record: Record, wait: Negotiation, request: PowerSource, call: Call) -> Step<Record>
    ensures { result ≡ rulings.negotiated «record» wait request call }
{
    match call {
        Call::Outcome(outcome) => entering::carry_on(
            record,
            request,
            negotiation::negotiate(wait, request, outcome),
        ),
        Call::ReEntry(_, _) => refusals::refuse(record, 3),
    }
}

// Either call. One call of `entering::settle` serves every place that holds no request, so that it is compiled into the caller (docs/DECISIONS.md).
pub fn take(record: Record, call: Call) -> Step<Record>
    ensures { result ≡ engine.take «record» call }
{
    if refusals::sound(record) {
        if let Place::Negotiating(wait, request) = record.place {
            return negotiating(record, wait, request, call);
        }
        settle(record, rule(record, record.place, call))
    } else {
        refusals::refuse(record, 1)
    }
}

// The outcome of the awaited action. Refusals: R1, R2, R4, R5.
#[tactic(auto, unfolding(definition::specs::Engine::take))]
pub fn step(record: Record, outcome: Outcome) -> Step<Record>
    ensures { result ≡ engine.step «record» outcome }
{
    take(record, Call::Outcome(outcome))
}

// What the host decides above `update_state` after S or H: a target, and after H a mode. Refusals: R1, R2, R3, R6.
#[tactic(auto, unfolding(definition::specs::Engine::take))]
pub fn re_enter(record: Record, number: u8, change: u16) -> Step<Record>
    ensures { result ≡ engine.re_enter «record» number change }
{
    take(record, Call::ReEntry(number, change))
}

fn created(first: Step<Record>) -> Created
    ensures { result ≡ engine.created first }
{
    let actions = first.actions;
    Step {
        record: Some(first.record),
        answer: first.answer,
        remaining: first.remaining,
        actions,
    }
}

// `new` and `new_dual_role`, with the limits among the settings. Refusal: R7.
#[tactic(auto, unfolding(definition::specs::Engine::create))]
pub fn create(settings: Settings) -> Created
    ensures { result ≡ engine.create settings }
{
    if refusals::uncreatable(settings) {
        refusals::not_created(7)
    } else {
        created(entering::begin(settings))
    }
}
