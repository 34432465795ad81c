// `explain`: a trace on standard input, its run in words on standard output (docs/EXPLAIN.md).
#![tactic(auto)]

use hints::Ended;
use model::{Answer, Call, Outcome, Place, Record, State, Step};
use std::io;
use std::io::Write;
use wording::Page;

// Room for an entry and for the line of a malformed event is left.
const FULL: usize = 64000;

fn write_page<W: Write>(output: &mut W, page: &Page<'_>) -> io::Result<()> {
    console::write_out(output, page.out, page.at)
}

// The page is written where it is full.
fn with_room<W: Write>(output: &mut W, page: &mut Page<'_>) -> io::Result<()> {
    if FULL < page.at {
        write_page(output, page)?;
        page.at = 0;
    }
    Ok(())
}

// The row of the wall that a message meets in Ready.
fn row_met(record: Record, call: Call) -> Option<u8> {
    match (record.place, call) {
        (Place::Waiting(State::Ready), Call::Outcome(Outcome::Message(message))) => {
            Some(dispatch::row_of(record.mode, record.port.dual_role, message))
        }
        _ => None,
    }
}

// An entry for each event. One page, written when it is full and at the end.
fn entries<W: Write>(
    output: &mut W,
    file: &[u8],
    mut record: Record,
    page: &mut Page<'_>,
) -> Result<(), Ended> {
    let places = (trace::HEADER_BYTES..).step_by(trace::EVENT_BYTES);
    for ((event, at), number) in trace_reader::new(file).zip(places).zip(1..) {
        with_room(output, page)?;
        let Ok(call) = event else {
            wording::malformed(page, number, trace::next(file, at).len());
            write_page(output, page)?;
            return Err(Ended::Refused(at));
        };
        let row = row_met(record, call);
        let step = policy_engine::take(record, call);
        record = step.record;
        wording::entry(page, number, row, &step);
    }
    write_page(output, page)?;
    Ok(())
}

// Entry 0 alone: R7 or R8.
fn refused<W: Write>(output: &mut W, answer: Answer, page: &mut Page<'_>) -> Result<(), Ended> {
    if let Answer::Refused(n) = answer {
        wording::refusal(page, 0, n);
        write_page(output, page)?;
    }
    Err(Ended::Refused(0))
}

fn explain<W: Write>(output: &mut W, file: &[u8]) -> Result<(), Ended> {
    let mut out = [0u8; 65536];
    let mut page = Page {
        out: &mut out,
        at: 0,
    };
    let created = replay::start(file);
    let actions = created.actions;
    let Some(record) = created.record else {
        return refused(output, created.answer, &mut page);
    };
    let first = Step {
        record,
        answer: created.answer,
        remaining: created.remaining,
        actions,
    };
    wording::entry(&mut page, 0, None, &first);
    entries(output, file, record, &mut page)
}

// As in `list`: one function for both, over three streams and a function, would be no shorter than the two.
fn main(rt: HostRuntime) {
    // A trace of 4,096 events, and one byte to see that a file is too long.
    let mut bytes = [0u8; 49161];
    let Ok(n) = console::read_whole(&mut rt.stdin(), &mut bytes) else {
        console::complain(&mut rt.stderr(), b"explain: cannot read standard input\n");
        return;
    };
    let file = console::part(&bytes, n);
    if let Err(ended) = explain(&mut rt.stdout(), file) {
        hints::tell(
            &mut rt.stderr(),
            b"explain: cannot write to standard output\n",
            file,
            ended,
        );
    }
}
