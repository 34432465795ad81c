// `one_bay`: a little run of one bay, whose record is advanced in place, and its listing on standard output.
#![tactic(auto)]

ghost use Rattle.std.specs.Prelude.{◌≡◌};
ghost use Rattle.definition.specs.Engine as engine;

use model::{
    Action, Answer, CapabilityResponse, Message, Outcome, Port, Record, Setting, Settings, Step,
};
use request::{FixedVariableSupply, PowerSource};
use std::io;
use std::io::Write;

// The bay's record is lent, and what the call told is put beside it for the listing.
fn advanced(mut record: Record, outcome: Outcome) -> Step<Record>
    ensures { result ≡ engine.step «record» outcome }
{
    let told = bay::advance(&mut record, outcome);
    let actions = told.actions;
    Step {
        record,
        answer: told.answer,
        remaining: told.remaining,
        actions,
    }
}

// A request for a fixed supply: the sink's third word to the bay.
const REQUEST: Message = Message::Request(Some(PowerSource::FixedVariableSupply(FixedVariableSupply(
    0,
))));

// The outcomes that document 01's example lists.
fn lines<W: Write>(
    output: &mut W,
    mut record: Record,
    answer: Answer,
    issued: [Action; 2],
    out: &mut [u8; 4096],
) -> io::Result<()> {
    let outcomes = [
        Outcome::Done,
        Outcome::Done,
        Outcome::Message(REQUEST),
        Outcome::Evaluation(CapabilityResponse::Accept),
        Outcome::Done,
        Outcome::Done,
        Outcome::Done,
    ];
    let mut entry = numeral::first();
    let mut to = listing::line(out, 0, entry, record, answer, issued);
    for outcome in outcomes {
        let step = advanced(record, outcome);
        record = step.record;
        let actions = step.actions;
        entry = numeral::following(entry);
        to = listing::line(out, to, entry, record, step.answer, actions);
    }
    console::write_out(output, out, to)
}

fn main(rt: HostRuntime) {
    let created = policy_engine::create(Settings {
        port: Port {
            dual_role: false,
            vconn_source: true,
            setting: Setting::Crate,
        },
        role_swapped: false,
        hard_limit: 2,
        caps_limit: 50,
    });
    let actions = created.actions;
    let Some(record) = created.record else {
        console::complain(&mut rt.stderr(), b"one_bay: not created\n");
        return;
    };
    let mut out = [0u8; 4096];
    if lines(&mut rt.stdout(), record, created.answer, actions, &mut out).is_err() {
        console::complain(
            &mut rt.stderr(),
            b"one_bay: cannot write to standard output\n",
        );
    }
}
