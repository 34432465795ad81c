// The numbers of documents 01 and 02, by the names of PD 3.2 and of the Rust. Constants, and not enums: messages, actions and errors hold any number,
// and `log_reader::read`, `listing::line`, `outcomes::when_control` and the R5 of `refusals::bad_event` answer for each.

// Actions, "written number.argument"; 0 is the fixed none.
pub const NONE: u8 = 0;

pub const PROTOCOL_RESET: u8 = 1;

pub const TIMER: u8 = 2;

pub const WAIT_FOR_VBUS: u8 = 3;

pub const SEND_CAPABILITIES: u8 = 4;

pub const AWAIT_REQUEST: u8 = 5;

pub const LOOK_UP: u8 = 6;

pub const EVALUATE: u8 = 7;

pub const SEND_CONTROL: u8 = 8;

pub const SUPPLY_TO_REQUEST: u8 = 9;

pub const SUPPLY_SAFE_5V: u8 = 10;

pub const READY_WAIT: u8 = 11;

pub const RECEIVE_ANYTHING: u8 = 12;

pub const HARD_RESET_SIGNALLING: u8 = 13;

pub const DRIVE_VCONN: u8 = 14;

pub const DPM_HARD_RESET: u8 = 15;

pub const SEND_EXTENDED_CONTROL: u8 = 16;

pub const RECEIVE: u8 = 17;

pub const INFORM: u8 = 18;

pub const AWAIT_NEW_CAPABILITIES: u8 = 19;

pub const GET_REMOTE_CAPABILITIES: u8 = 20;

pub const READ_SINK_CAPABILITIES: u8 = 21;

pub const SEND_SINK_CAPABILITIES: u8 = 22;

pub const ASK_VCONN_SWAP: u8 = 23;

pub const ASK_FR_SWAP_SIGNALED: u8 = 24;

pub const DISCHARGE_VBUS: u8 = 25;

pub const CC_SINK: u8 = 26;

// Document 02, order 4.
pub const ASK_DATA_SWAP: u8 = 27;

pub const SWAP_DATA_ROLE: u8 = 28;

pub const AWAIT_SWAP_ANSWER: u8 = 29;

// Arguments of TIMER.
pub const SWAP_SOURCE_START: u8 = 1;

pub const SOURCE_CAPABILITY: u8 = 2;

pub const PS_HARD_RESET: u8 = 3;

// Control message types.
pub const ACCEPT: u8 = 3;

pub const REJECT: u8 = 4;

pub const PS_RDY: u8 = 6;

pub const GET_SOURCE_CAP: u8 = 7;

pub const GET_SINK_CAP: u8 = 8;

pub const DR_SWAP: u8 = 9;

pub const PR_SWAP: u8 = 10;

pub const VCONN_SWAP: u8 = 11;

pub const WAIT: u8 = 12;

pub const SOFT_RESET: u8 = 13;

pub const NOT_SUPPORTED: u8 = 16;

pub const FR_SWAP: u8 = 19;

// Extended control message types, PD 3.2 Tab. 6.67.
pub const EPR_GET_SOURCE_CAP: u8 = 1;

pub const EPR_GET_SINK_CAP: u8 = 2;

pub const EPR_KEEP_ALIVE: u8 = 3;

pub const EPR_KEEP_ALIVE_ACK: u8 = 4;

// Actions of EPR_Mode, PD 3.2 Tab. 6.50.
pub const EPR_ENTER: u32 = 1;

pub const EPR_EXIT: u32 = 5;

// Protocol errors.
pub const RX_HARD_RESET: u8 = 0;

pub const RECEIVE_TIMEOUT: u8 = 1;

pub const UNEXPECTED_MESSAGE: u8 = 2;
