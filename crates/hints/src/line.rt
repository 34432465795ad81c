// A line, piece by piece. What cannot be written is left out, and the pieces behind it still come: there is nobody left to be told of a failure here.
use std::fmt;
use std::io::Write;

#[derive(Drop)]
pub(crate) struct Line<'a, W> {
    pub(crate) to: &'a mut W,
}

impl<W: Write> Line<'_, W> {
    // Two hexadecimal digits, the second only behind the first.
    pub(crate) fn put_byte(&mut self, n: u8) {
        let _ = write!(self.to, "{n:02x}");
    }
}

impl<W: Write> fmt::Write for Line<'_, W> {
    fn write_str(&mut self, text: &str) -> fmt::Result {
        let _ = self.to.write_all(text.as_bytes());
        Ok(())
    }
}
