// Numbers of two and of four bytes. "Little-endian, as all numbers."
#![tactic(auto)]

ghost use Rattle.std.specs.Prelude.{◌≡◌, ◌+◌, ◌*◌};

pub fn half(b0: u8, b1: u8) -> u16
    ensures { result ≡ b0 + 256 * b1 }
{
    u16::from_le_bytes([b0, b1])
}

pub fn word(b0: u8, b1: u8, b2: u8, b3: u8) -> u32
    ensures { result ≡ b0 + 256 * b1 + 65536 * b2 + 16777216 * b3 }
{
    u32::from_le_bytes([b0, b1, b2, b3])
}
