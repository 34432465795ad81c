// Why an event is bad.
use crate::bytes::{byte, half, word};
use reasons::EventReason;
use std::fmt;
use std::fmt::Write;

// The field, what it is and what it may be.
fn field<W: Write>(
    to: &mut W,
    code: u8,
    name: &str,
    value: u32,
    least: u32,
    most: u32,
) -> fmt::Result {
    write!(to, " of code {code}{name}{value}, and not {least}")?;
    if least < most {
        write!(to, " to {most}")?;
    }
    to.write_str("\n")
}

fn because<W: Write>(to: &mut W, event: &[u8], reason: EventReason) -> fmt::Result {
    let code = byte(event, 0);
    match reason {
        EventReason::Partial => write!(to, " has {} bytes, and not 12\n", event.len()),
        EventReason::Code => write!(to, " has an unknown code {code}\n"),
        EventReason::A(least, most) => field(
            to,
            code,
            ": a is ",
            u32::from(byte(event, 1)),
            u32::from(least),
            u32::from(most),
        ),
        EventReason::B(most) => field(to, code, ": b is ", half(event, 2, 3), 0, u32::from(most)),
        EventReason::First(most) => field(
            to,
            code,
            ": the first word is ",
            word(event, 4),
            0,
            most,
        ),
        EventReason::Second => field(to, code, ": the second word is ", word(event, 8), 0, 0),
    }
}

// The event at 8 is entry 1. Nothing is said of an event that is good.
pub(crate) fn tell_event<W: Write>(to: &mut W, file: &[u8], at: usize) -> fmt::Result {
    let event = trace::next(file, at);
    if let Err(reason) = reasons::of_event(event) {
        write!(to, "R8: event {}", at / trace::EVENT_BYTES + 1)?;
        because(to, event, reason)?;
    }
    Ok(())
}
