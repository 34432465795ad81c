// An entry's number, counted up as text: a division for each digit of each line would cost more than all else of the line.
#![tactic(auto)]

ghost use Rattle.std.specs.Prelude.{◌≡◌};
ghost use Rattle.numeral.specs.Numeral as specs;

// Four digits, the first in the lowest byte.
#[derive(Clone, Copy)]
pub struct Numeral(pub u32);

pub fn first() -> Numeral
    ensures { result ≡ record { 0 = specs.numeral 0 } }
{
    Numeral(u32::from_le_bytes(*b"0000"))
}

// The next number: a digit below 9 is one more, and the nines after it are 0.
#[tactic(auto, unfolding(crate::specs::Numeral::following))]
pub fn following(numeral: Numeral) -> Numeral
    ensures { result ≡ record { 0 = specs.following numeral.0 } }
{
    let text = numeral.0;
    if text < 0x3900_0000 {
        return Numeral(text + 0x100_0000);
    }
    let text = text - 0x900_0000;
    if text % 0x100_0000 < 0x39_0000 {
        return Numeral(text + 0x1_0000);
    }
    let text = text - 0x9_0000;
    if text % 0x1_0000 < 0x3900 {
        return Numeral(text + 0x100);
    }
    Numeral(text - 0x900 + 1)
}
