// What ended a program over a trace, in one line on standard error; of a malformed trace (R8) what is wrong with it:
// `R8: event 7 has an unknown code 12`.
#![tactic(auto)]

mod bad_event;
mod bad_header;
mod bytes;
mod line;

ghost use Rattle.std.specs.Prelude.{◌≡◌};
ghost use Rattle.hints.specs.declared.Ended.TheVariants.{Unwritten};

use crate::bad_event::tell_event;
use crate::bad_header::tell_header;
use crate::line::Line;
use std::io::Write;
use std::{fmt, io};

// Why a program ended before its last event: R7 or R8 at this place of the file, or a write that failed.
#[derive(Clone, Copy)]
pub enum Ended {
    Refused(usize),
    Unwritten,
}

impl From<io::Error> for Ended {
    ghost from_gives = { λ _ ended. ended ≡ Unwritten };

    fn from(_failed: io::Error) -> Self {
        Self::Unwritten
    }
}

// Of the event at this place of a file, or before the first of its header.
fn tell_refused<W: Write>(to: &mut W, file: &[u8], at: usize) -> fmt::Result {
    let mut line = Line { to };
    if at < trace::HEADER_BYTES {
        tell_header(&mut line, file)
    } else {
        tell_event(&mut line, file, at)
    }
}

// `unwritten` is what the program says of a failed write, in one write.
pub fn tell<W: Write>(to: &mut W, unwritten: &[u8], file: &[u8], ended: Ended) {
    let _ = match ended {
        Ended::Refused(at) => tell_refused(to, file, at).is_ok(),
        Ended::Unwritten => to.write_all(unwritten).is_ok(),
    };
}
