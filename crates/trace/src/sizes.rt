// "Then at most 4,096 events of 12 bytes"
pub const HEADER_BYTES: usize = 8;

pub const EVENT_BYTES: usize = 12;

pub const MOST_BYTES: usize = 49160;
