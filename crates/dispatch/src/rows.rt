// Document 01, port order 3, sentence by sentence: the rows on the wall. `./pes rules` prints them, `search` looks messages up in them.
ghost use Rattle.std.specs.Prelude.{◌≡◌, Some};
ghost use Rattle.dispatch.specs.Rows as rows;

use Class::*;
use Condition::*;
use Next::*;

// The classes of document 01 that have rows of their own.
#[derive(Clone, Copy, PartialEq, Eq)]
pub enum Class {
    Request,
    EprRequest,
    EprMode,
    Control,
    ExtendedControl,
}

#[derive(Clone, Copy, PartialEq, Eq)]
pub enum Condition {
    Always,
    InSpr,
    InEpr,
    Dual,
    NotDual,
    BadPayload,
}

// Next states, each with its section of PD 3.2.
#[derive(Clone, Copy, PartialEq, Eq)]
pub enum Next {
    // S.0, out of Ready, Sec. 8.3.3.2.6
    Stop,
    // Sec. 8.3.3.2.4
    NegotiateCapability,
    // H.5, Sec. 8.3.3.26.1.1
    EprEntry,
    // H.6, Sec. 8.3.3.26.3.2
    EprExitReceived,
    // Sec. 8.3.3.19.1.2
    DataEvaluate,
    // H.3, Sec. 8.3.3.19.3.2
    PowerEvaluate,
    // Sec. 8.3.3.2.9
    HardReset,
    // Sec. 8.3.3.4.1.2
    SoftReset,
    // Sec. 8.3.3.2.3
    SendCapabilities,
    // Sec. 8.3.3.2.15
    GiveSourceCap,
    // Sec. 8.3.3.2.15
    GiveEprSourceCap,
    // Sec. 8.3.3.20.2
    EvaluateSwap,
    // Sec. 8.3.3.19.5.2
    FastEvaluate,
    // Sec. 8.3.3.19.8.1
    GiveSinkCap,
    // Sec. 8.3.3.19.8.1
    GiveEprSinkCap,
    // Sec. 8.3.3.6.1.2
    NotSupportedReceived,
    // Sec. 8.3.3.2.14
    EprKeepAlive,
    // Sec. 8.3.3.6.1.1
    SendNotSupported,
}

// Without a class: any. Without a type: any, or a class that has none.
#[derive(Clone, Copy)]
pub struct Row {
    pub class: Option<Class>,
    pub message_type: Option<u8>,
    pub condition: Condition,
    pub next: Next,
}

fn when(class: Class, message_type: Option<u8>, condition: Condition, next: Next) -> Row
    ensures { result ≡ rows.when (Some class) message_type condition next }
{
    Row {
        class: Some(class),
        message_type,
        condition,
        next,
    }
}

// The row of everything else.
pub const LAST: u8 = 26;

// Read from the top: the first row that holds is the answer.
#[tactic(auto, unfolding(crate::specs::Rows::rule))]
pub fn rule(n: u8) -> Row
    ensures { result ≡ rows.rule n }
{
    match n {
        // "Request outside SPR, EprRequest outside EPR: S.0; right mode but bad payload: SendNotSupported."
        1 => when(Request, None, InEpr, Stop),
        2 => when(EprRequest, None, InSpr, Stop),
        3 => when(Request, None, BadPayload, SendNotSupported),
        4 => when(EprRequest, None, BadPayload, SendNotSupported),
        5 => when(Request, None, Always, NegotiateCapability),
        6 => when(EprRequest, None, Always, NegotiateCapability),
        // "EprMode .. 1 (Enter): Entry in SPR, HardReset in EPR; 5 (Exit): HardReset in SPR, ExitReceived in EPR; others SendNotSupported."
        7 => when(EprMode, Some(1), InSpr, EprEntry),
        8 => when(EprMode, Some(1), InEpr, HardReset),
        9 => when(EprMode, Some(5), InSpr, HardReset),
        10 => when(EprMode, Some(5), InEpr, EprExitReceived),
        // "Control 13 SoftReset; 7 SendCapabilities in SPR, GiveSourceCap in EPR; 11 EvaluateSwap; 9, not dual SendNotSupported, else EPR
        // HardReset, else H.1; 10, 19 and 8 need dual_role (H.3, fast Evaluate, give SPR sink capabilities); 16 informs." Document 02, order 4: in place of
        // H.1 the data swap's Evaluate.
        11 => when(Control, Some(13), Always, SoftReset),
        12 => when(Control, Some(7), InSpr, SendCapabilities),
        13 => when(Control, Some(7), InEpr, GiveSourceCap),
        14 => when(Control, Some(11), Always, EvaluateSwap),
        15 => when(Control, Some(9), NotDual, SendNotSupported),
        16 => when(Control, Some(9), InEpr, HardReset),
        17 => when(Control, Some(9), Always, DataEvaluate),
        18 => when(Control, Some(10), Dual, PowerEvaluate),
        19 => when(Control, Some(19), Dual, FastEvaluate),
        20 => when(Control, Some(8), Dual, GiveSinkCap),
        21 => when(Control, Some(16), Always, NotSupportedReceived),
        // "Extended control 1: GiveSourceCap in SPR, SendCapabilities in EPR; 2 needs dual_role; 3 EprKeepAlive in both modes."
        22 => when(ExtendedControl, Some(1), InSpr, GiveEprSourceCap),
        23 => when(ExtendedControl, Some(1), InEpr, SendCapabilities),
        24 => when(ExtendedControl, Some(2), Dual, GiveEprSinkCap),
        25 => when(ExtendedControl, Some(3), Always, EprKeepAlive),
        // "All else, 4 and reserved included: SendNotSupported."
        _ => Row {
            class: None,
            message_type: None,
            condition: Always,
            next: SendNotSupported,
        },
    }
}
