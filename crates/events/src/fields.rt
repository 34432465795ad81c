// The twelve bytes of an event.
ghost use Rattle.std.specs.Prelude.{◌≡◌};
ghost use Rattle.events.specs.Fields.{split};

use crate::decoding::Malformed;

// "code (one byte), a (one byte), b (two bytes), two words of four bytes": as they stand in a file, so that a code is no enum's.
#[derive(Clone, Copy)]
pub struct Fields {
    pub code: u8,
    pub a: u8,
    pub b: u16,
    pub first: u32,
    pub second: u32,
}

impl<'a> TryFrom<&'a [u8]> for Fields {
    type Error = Malformed;

    ghost try_from_gives = { λ event r. r ≡ split event.now };

    // Any number of bytes but twelve is bad: a partial event.
    #[tactic(auto, unfolding(crate::specs::Fields::split))]
    fn try_from(event: &'a [u8]) -> Result<Self, Malformed> {
        if event.len() != 12 {
            return Err(Malformed);
        }
        Ok(Fields {
            code: event[0],
            a: event[1],
            b: little_endian::half(event[2], event[3]),
            first: little_endian::word(event[4], event[5], event[6], event[7]),
            second: little_endian::word(event[8], event[9], event[10], event[11]),
        })
    }
}
