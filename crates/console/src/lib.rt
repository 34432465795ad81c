// Standard input, whole, and standard output, for the programs over a trace.
#![tactic(auto)]

ghost use Rattle.std.specs.Prelude.{◌≡◌, ◌≤◌, ◌<◌, IsErr, length, take};

use std::io;
use std::io::{ErrorKind, Read, Write};

// The input, until it ends or the buffer is full, and how many bytes that is. No `for`: how much a read gives is not known before it.
pub fn read_whole<R: Read>(input: &mut R, file: &mut [u8]) -> io::Result<usize> {
    let mut n = 0;
    while n < file.len() {
        let more = input.read(&mut file[n..])?;
        if more == 0 {
            break;
        }
        n += more;
    }
    Ok(n)
}

// The first bytes of a buffer.
pub fn part(file: &[u8], n: usize) -> &[u8]
    ensures result_value { result.now ≡ take n file.now }
    ensures result_in_bounds { length result.now ≤ length file.now }
{
    &file[..n.min(file.len())]
}

// All of the bytes before `to`; none, where the buffer ends before it.
pub fn write_out<W: Write>(output: &mut W, out: &[u8], to: usize) -> io::Result<()>
    ensures { length out.now < to → IsErr result }
{
    match out.get(..to) {
        Some(bytes) => output.write_all(bytes),
        None => Err(io::Error::from(ErrorKind::InvalidInput)),
    }
}

pub fn complain<W: Write>(errors: &mut W, message: &[u8]) {
    let _ = errors.write_all(message);
}
