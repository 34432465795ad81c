// The record that the firmware keeps for its bay, advanced in place.
#![tactic(auto)]

ghost use Rattle.definition.specs.Engine as engine;
ghost use Rattle.bay.specs.Kept.{Kept};

use model::{Action, Answer, Outcome, Record, Step};

// What a call told: its answer, the attempts that remain, and its actions. A `Step<()>` would be no plainer: a field that holds nothing.
#[derive(Clone, Copy)]
pub struct Told {
    pub answer: Answer,
    pub remaining: Option<u8>,
    pub actions: [Action; 2],
}

fn keep(record: &mut Record, step: Step<Record>) -> Told
    ensures { Kept step «record».new result }
{
    *record = step.record;
    let actions = step.actions;
    Told {
        answer: step.answer,
        remaining: step.remaining,
        actions,
    }
}

// The outcome of the awaited action. After a refusal the record is as it was.
pub fn advance(record: &mut Record, outcome: Outcome) -> Told
    ensures { Kept (engine.step «record».old outcome) «record».new result }
{
    let step = policy_engine::step(*record, outcome);
    keep(record, step)
}

// What the host decides after a stop or a handover. After a refusal the record is as it was.
pub fn return_to(record: &mut Record, number: u8, change: u16) -> Told
    ensures { Kept (engine.re_enter «record».old number change) «record».new result }
{
    let step = policy_engine::re_enter(*record, number, change);
    keep(record, step)
}
