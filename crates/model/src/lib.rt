// The engine's types, the definition of its behaviour (specs/) and the theorems about it (proofs/).
// Names are those of src/source/policy_engine/mod.rs of usbpd 3.0.0; numbers are document 01's.
#![tactic(auto)]

mod codes;
mod moves;
mod numbers;
mod outcome;
mod place;
mod record;

pub use codes::UnknownCode;
pub use moves::{Change, Decided, Move, Onward};
pub use numbers::{
    ACCEPT, ASK_DATA_SWAP, ASK_FR_SWAP_SIGNALED, ASK_VCONN_SWAP, AWAIT_NEW_CAPABILITIES,
    AWAIT_REQUEST, AWAIT_SWAP_ANSWER, CC_SINK, DISCHARGE_VBUS, DPM_HARD_RESET, DR_SWAP,
    DRIVE_VCONN, EPR_ENTER, EPR_EXIT, EPR_GET_SINK_CAP, EPR_GET_SOURCE_CAP, EPR_KEEP_ALIVE,
    EPR_KEEP_ALIVE_ACK, EVALUATE, FR_SWAP, GET_REMOTE_CAPABILITIES, GET_SINK_CAP, GET_SOURCE_CAP,
    HARD_RESET_SIGNALLING, INFORM, LOOK_UP, NONE, NOT_SUPPORTED, PR_SWAP, PROTOCOL_RESET,
    PS_HARD_RESET, PS_RDY, READ_SINK_CAPABILITIES, READY_WAIT, RECEIVE, RECEIVE_ANYTHING,
    RECEIVE_TIMEOUT, REJECT, RX_HARD_RESET, SEND_CAPABILITIES, SEND_CONTROL, SEND_EXTENDED_CONTROL,
    SEND_SINK_CAPABILITIES, SOFT_RESET, SOURCE_CAPABILITY, SUPPLY_SAFE_5V, SUPPLY_TO_REQUEST,
    SWAP_DATA_ROLE, SWAP_SOURCE_START, TIMER, UNEXPECTED_MESSAGE, VCONN_SWAP, WAIT, WAIT_FOR_VBUS,
};
pub use outcome::{Call, CapabilityResponse, Event, Message, Outcome, Timeout};
pub use place::{
    DataRole, DataRoleSwap, DefaultWait, Denial, DisabledWait, Exchange, FastPowerRoleSwap, Finish,
    GetWait, GiveWait, Handover, HardResetWait, Mode, Negotiation, Place, SinkCapWait, StartupWait,
    State, SwapState, VcsState, VcsSwapSource,
};
pub use record::{Action, Answer, Contract, Created, Port, Record, Setting, Settings, Step};
