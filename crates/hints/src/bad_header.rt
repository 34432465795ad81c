// Why a header is bad.
use crate::bytes::{byte, half};
use crate::line::Line;
use reasons::HeaderReason;
use std::fmt::Write;
use std::{fmt, io};

fn mark<W: io::Write>(to: &mut Line<'_, W>, file: &[u8]) -> fmt::Result {
    to.write_str("R8: not a trace: begins with the bytes ")?;
    to.put_byte(byte(file, 0));
    to.write_str(" ")?;
    to.put_byte(byte(file, 1));
    to.write_str(" ")?;
    to.put_byte(byte(file, 2));
    to.write_str(", and a trace with 50 45 53, PES\n")
}

fn because<W: io::Write>(to: &mut Line<'_, W>, file: &[u8], reason: HeaderReason) -> fmt::Result {
    match reason {
        HeaderReason::Short => write!(
            to,
            "R8: not a trace: {} bytes, and a header has 8\n",
            file.len()
        ),
        HeaderReason::Mark => mark(to, file),
        HeaderReason::Version => write!(to, "R8: version {}, and not 1\n", half(file, 3, 4)),
        HeaderReason::Flags => write!(to, "R8: flags {}, and not 0 to 15\n", byte(file, 5)),
        HeaderReason::Long => write!(to, "R8: over 4,096 events: more than 49,160 bytes\n"),
    }
}

// Nothing is said of a header that is good.
pub(crate) fn tell_header<W: io::Write>(to: &mut Line<'_, W>, file: &[u8]) -> fmt::Result {
    match reasons::of_header(file) {
        Ok(()) => Ok(()),
        Err(reason) => because(to, file, reason),
    }
}
