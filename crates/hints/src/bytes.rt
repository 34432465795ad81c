// Bytes of a file that may end before them.

// A byte, or 0 behind the last one.
pub(crate) fn byte(bytes: &[u8], i: usize) -> u8 {
    bytes.get(i).copied().unwrap_or(0)
}

pub(crate) fn half(bytes: &[u8], low: usize, high: usize) -> u32 {
    u32::from(little_endian::half(byte(bytes, low), byte(bytes, high)))
}

// The four bytes from a place on.
pub(crate) fn word(bytes: &[u8], at: usize) -> u32 {
    let rest = bytes.get(at..).unwrap_or(&[]);
    little_endian::word(byte(rest, 0), byte(rest, 1), byte(rest, 2), byte(rest, 3))
}
