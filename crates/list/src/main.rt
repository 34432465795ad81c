// `list`: a trace on standard input, its listing on standard output.
#![tactic(auto)]

use hints::Ended;
use model::{Action, Answer, Record};
use std::io;
use std::io::Write;

// The buffer is written where it has no room for a line. `explain` has a page, and room for an entry.
fn with_room<W: Write>(output: &mut W, out: &[u8; 65536], to: usize) -> io::Result<usize> {
    if to <= 65496 {
        return Ok(to);
    }
    console::write_out(output, out, to)?;
    Ok(0)
}

// A line for each entry, and then the next event, which is what `trace::next` hands back: no other cut of the file is held by a promise. One buffer,
// written when it has no room for a line and at the end. No `for`: with a line before the loop and one in it the events cost more, over the reader beside
// its places 359.2 instructions an event (busy; 314.9 refused, 363.3 resets), and so, by valgrind, 235.3, 185.7, 237.9.
#[tactic(auto, unfolding(trace_reader::specs::Read::after))]
fn lines<W: Write>(
    output: &mut W,
    file: &[u8],
    mut record: Record,
    mut answer: Answer,
    mut actions: [Action; 2],
    out: &mut [u8; 65536],
) -> Result<(), Ended> {
    let mut entry = numeral::first();
    let mut to = 0;
    let mut at = trace::HEADER_BYTES;
    loop {
        to = with_room(output, out, to)?;
        to = listing::line(out, to, entry, record, answer, actions);
        if file.len() <= at {
            console::write_out(output, out, to)?;
            return Ok(());
        }
        entry = numeral::following(entry);
        let Ok(call) = events::decode(trace::next(file, at)) else {
            to = with_room(output, out, to)?;
            to = listing::refusal(out, to, entry, 8);
            console::write_out(output, out, to)?;
            return Err(Ended::Refused(at));
        };
        let step = policy_engine::take(record, call);
        record = step.record;
        answer = step.answer;
        actions = step.actions;
        at = trace_reader::after(at);
    }
}

// The line of entry 0 alone: R7 or R8.
fn refused<W: Write>(output: &mut W, answer: Answer, out: &mut [u8; 65536]) -> Result<(), Ended> {
    if let Answer::Refused(n) = answer {
        let to = listing::refusal(out, 0, numeral::first(), n);
        console::write_out(output, out, to)?;
    }
    Err(Ended::Refused(0))
}

fn list<W: Write>(output: &mut W, file: &[u8]) -> Result<(), Ended> {
    let mut out = [0u8; 65536];
    let created = replay::start(file);
    let actions = created.actions;
    match created.record {
        None => refused(output, created.answer, &mut out),
        Some(record) => lines(output, file, record, created.answer, actions, &mut out),
    }
}

fn main(rt: HostRuntime) {
    // A trace of 4,096 events, and one byte to see that a file is too long.
    let mut bytes = [0u8; 49161];
    let Ok(n) = console::read_whole(&mut rt.stdin(), &mut bytes) else {
        console::complain(&mut rt.stderr(), b"list: cannot read standard input\n");
        return;
    };
    let file = console::part(&bytes, n);
    if let Err(ended) = list(&mut rt.stdout(), file) {
        hints::tell(
            &mut rt.stderr(),
            b"list: cannot write to standard output\n",
            file,
            ended,
        );
    }
}
