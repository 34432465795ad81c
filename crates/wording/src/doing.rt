// An action by its number and argument, what they mean, and the request that it carries.
use crate::requests::Requested;
use model::Action;
use std::fmt;

fn timer(argument: u8) -> Option<&'static str> {
    match argument {
        model::SWAP_SOURCE_START => Some("timer: SwapSourceStart"),
        model::SOURCE_CAPABILITY => Some("timer: SourceCapability"),
        model::PS_HARD_RESET => Some("timer: PSHardReset"),
        _ => None,
    }
}

fn send_control(argument: u8) -> Option<&'static str> {
    match argument {
        model::ACCEPT => Some("send control message: Accept"),
        model::REJECT => Some("send control message: Reject"),
        model::PS_RDY => Some("send control message: PsRdy"),
        model::GET_SINK_CAP => Some("send control message: GetSinkCap"),
        model::DR_SWAP => Some("send control message: DrSwap"),
        model::VCONN_SWAP => Some("send control message: VconnSwap"),
        model::WAIT => Some("send control message: Wait"),
        model::SOFT_RESET => Some("send control message: SoftReset"),
        model::NOT_SUPPORTED => Some("send control message: NotSupported"),
        _ => None,
    }
}

fn send_extended_control(argument: u8) -> Option<&'static str> {
    match argument {
        model::EPR_GET_SINK_CAP => Some("send extended control message: EprGetSinkCap"),
        model::EPR_KEEP_ALIVE_ACK => Some("send extended control message: EprKeepAliveAck"),
        _ => None,
    }
}

// Which timeouts run: PPS adds 1, keep-alive 2.
fn ready_wait(argument: u8) -> Option<&'static str> {
    match argument {
        0 => Some("wait in Ready: no timeout"),
        1 => Some("wait in Ready: PPS timeout"),
        2 => Some("wait in Ready: keep-alive timeout"),
        3 => Some("wait in Ready: PPS and keep-alive timeouts"),
        _ => None,
    }
}

fn receive(argument: u8) -> Option<&'static str> {
    match argument {
        1 => Some("receive: SPR sink capabilities under SenderResponse"),
        2 => Some("receive: EPR sink capabilities under SenderResponse"),
        3 => Some("receive: Accept under SenderResponse"),
        4 => Some("receive: PsRdy under PSSourceOnSpr"),
        5 => Some("receive: PsRdy under VCONNOn"),
        6 => Some("receive: any message under SenderResponse"),
        _ => None,
    }
}

// 16 is added where none were received.
fn inform(argument: u8) -> Option<&'static str> {
    match argument {
        1 => Some("inform: SPR sink capabilities"),
        2 => Some("inform: EPR sink capabilities"),
        3 => Some("inform: remote source capabilities"),
        4 => Some("inform: not supported"),
        17 => Some("inform: SPR sink capabilities, none received"),
        18 => Some("inform: EPR sink capabilities, none received"),
        19 => Some("inform: remote source capabilities, none received"),
        _ => None,
    }
}

// Actions without an argument, and those whose argument is the first of two.
fn with_0(number: u8) -> Option<&'static str> {
    match number {
        model::PROTOCOL_RESET => Some("protocol reset"),
        model::WAIT_FOR_VBUS => Some("wait for VBUS"),
        model::SEND_CAPABILITIES => Some("send capabilities: SPR"),
        model::AWAIT_REQUEST => Some("await request: Request"),
        model::LOOK_UP => Some("look up object position"),
        model::EVALUATE => Some("evaluate"),
        model::SUPPLY_TO_REQUEST => Some("supply"),
        model::SUPPLY_SAFE_5V => Some("supply to safe 5 V"),
        model::RECEIVE_ANYTHING => Some("receive anything"),
        model::HARD_RESET_SIGNALLING => Some("Hard Reset signalling"),
        model::DRIVE_VCONN => Some("drive_vconn: false"),
        model::DPM_HARD_RESET => Some("DPM hard_reset"),
        model::AWAIT_NEW_CAPABILITIES => Some("await new capabilities"),
        model::GET_REMOTE_CAPABILITIES => Some("get remote capabilities: SPR"),
        model::READ_SINK_CAPABILITIES => Some("read own sink capabilities"),
        model::SEND_SINK_CAPABILITIES => Some("send sink capabilities: SPR"),
        model::ASK_VCONN_SWAP => Some("ask: VCONN swap"),
        model::ASK_FR_SWAP_SIGNALED => Some("ask: fr_swap_signaled"),
        model::DISCHARGE_VBUS => Some("discharge_vbus"),
        model::CC_SINK => Some("cc_sink"),
        model::ASK_DATA_SWAP => Some("ask: data role swap"),
        model::SWAP_DATA_ROLE => Some("swap_data_role: Ufp"),
        model::AWAIT_SWAP_ANSWER => Some("receive: Accept, Reject or Wait under SenderResponse"),
        _ => None,
    }
}

fn with_1(number: u8) -> Option<&'static str> {
    match number {
        model::SEND_CAPABILITIES => Some("send capabilities: EPR"),
        model::AWAIT_REQUEST => Some("await request: EprRequest"),
        model::DRIVE_VCONN => Some("drive_vconn: true"),
        model::GET_REMOTE_CAPABILITIES => Some("get remote capabilities: EPR"),
        model::SEND_SINK_CAPABILITIES => Some("send sink capabilities: EPR"),
        model::SWAP_DATA_ROLE => Some("swap_data_role: Dfp"),
        _ => None,
    }
}

fn meaning(number: u8, argument: u8) -> Option<&'static str> {
    match (number, argument) {
        (model::TIMER, _) => timer(argument),
        (model::SEND_CONTROL, _) => send_control(argument),
        (model::READY_WAIT, _) => ready_wait(argument),
        (model::SEND_EXTENDED_CONTROL, _) => send_extended_control(argument),
        (model::RECEIVE, _) => receive(argument),
        (model::INFORM, _) => inform(argument),
        (_, 0) => with_0(number),
        (_, 1) => with_1(number),
        _ => None,
    }
}

// A line, or nothing for the fixed none.
#[derive(Clone, Copy)]
pub(crate) struct Doing(pub(crate) Action);

impl fmt::Display for Doing {
    fn fmt<W: fmt::Write>(&self, f: &mut fmt::Formatter<W>) -> fmt::Result {
        let Action {
            number,
            argument,
            request,
        } = self.0;
        if number == model::NONE && argument == 0 {
            return Ok(());
        }
        f.write_str("  action    ")?;
        if let Some(words) = meaning(number, argument) {
            write!(f, "{number}.{argument}, {words}")?;
        }
        if let Some(request) = request {
            write!(f, "{}", Requested(request))?;
        }
        f.write_str("\n")
    }
}
