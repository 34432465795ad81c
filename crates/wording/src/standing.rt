// Where a record stands: the Rust's state, the await inside it, and the request that it holds.
use crate::requests::Requested;
use model::{
    DataRoleSwap, DefaultWait, Denial, DisabledWait, Exchange, FastPowerRoleSwap, GetWait,
    GiveWait, HardResetWait, Mode, Negotiation, Place, SinkCapWait, StartupWait, State, SwapState,
    VcsState, VcsSwapSource,
};
use std::fmt;

// Words by functions, and not by Display: the types are another crate's, and a newtype for each would be longer.
pub(crate) fn mode_name(mode: Mode) -> &'static str {
    match mode {
        Mode::Spr => "Spr",
        Mode::Epr => "Epr",
    }
}

fn startup(wait: StartupWait) -> &'static str {
    match wait {
        StartupWait::SwapSourceStart => "Startup { role_swap: true }, SwapSourceStart timer",
        StartupWait::SwappedVbus => "Startup { role_swap: true }, wait for VBUS",
        StartupWait::Vbus => "Startup { role_swap: false }, wait for VBUS",
    }
}

fn exchange(wait: Exchange) -> &'static str {
    match wait {
        Exchange::Transmit => "transmit",
        Exchange::Receive => "receive",
    }
}

fn negotiation(wait: Negotiation) -> &'static str {
    match wait {
        Negotiation::Lookup => "NegotiateCapability, look up",
        Negotiation::Evaluate => "NegotiateCapability, evaluate",
        Negotiation::Accept => "TransitionSupply, transmit Accept",
        Negotiation::Supply => "TransitionSupply, supply",
        Negotiation::PsRdy => "TransitionSupply, transmit PsRdy",
    }
}

fn disabled(wait: DisabledWait) -> &'static str {
    match wait {
        DisabledWait::Supply => "Disabled, supply",
        DisabledWait::Receive => "Disabled, receive",
    }
}

fn capability_response(denial: Denial) -> &'static str {
    match denial {
        Denial::Reject => "CapabilityResponse(Reject), transmit",
        Denial::Wait => "CapabilityResponse(Wait), transmit",
    }
}

fn hard_reset(wait: HardResetWait) -> &'static str {
    match wait {
        HardResetWait::Signal => "HardReset, signal",
        HardResetWait::Timer => "HardReset, PSHardReset timer",
    }
}

fn transition_to_default(wait: DefaultWait) -> &'static str {
    match wait {
        DefaultWait::VconnOff => "TransitionToDefault, drive_vconn false",
        DefaultWait::HardReset => "TransitionToDefault, hard_reset",
        DefaultWait::VconnOn => "TransitionToDefault, drive_vconn true",
    }
}

fn get_sink_cap(wait: SinkCapWait) -> &'static str {
    match wait {
        SinkCapWait::Transmit => "GetSinkCap, transmit",
        SinkCapWait::Receive => "GetSinkCap, receive",
        SinkCapWait::Inform => "GetSinkCap, inform some",
        SinkCapWait::InformNone => "GetSinkCap, inform none",
    }
}

fn data_role(swap: DataRoleSwap) -> &'static str {
    match swap {
        DataRoleSwap::Evaluate => "DrpSwap(Data(Evaluate)), ask",
        DataRoleSwap::Accept => "DrpSwap(Data(Accept)), transmit",
        DataRoleSwap::Change => "DrpSwap(Data(Change)), swap_data_role",
        DataRoleSwap::Send => "DrpSwap(Data(Send)), transmit",
        DataRoleSwap::Answer => "DrpSwap(Data(Send)), receive",
        DataRoleSwap::Reject => "DrpSwap(Data(Reject)), transmit",
    }
}

fn fast_power(swap: FastPowerRoleSwap) -> &'static str {
    match swap {
        FastPowerRoleSwap::Evaluate => "DrpSwap(FastPower(Evaluate)), ask",
        FastPowerRoleSwap::Accept => "DrpSwap(FastPower(Accept)), transmit",
        FastPowerRoleSwap::TransitionToOff => "DrpSwap(FastPower(TransitionToOff)), discharge_vbus",
        FastPowerRoleSwap::AssertRd => "DrpSwap(FastPower(AssertRd)), cc_sink",
        FastPowerRoleSwap::WaitSourceOn => "DrpSwap(FastPower(WaitSourceOn)), transmit",
        FastPowerRoleSwap::SourceOn => "DrpSwap(FastPower(WaitSourceOn)), receive",
    }
}

fn get_wait(wait: GetWait) -> &'static str {
    match wait {
        GetWait::Get => "get",
        GetWait::Inform => "inform some",
        GetWait::InformNone => "inform none",
    }
}

fn give_wait(wait: GiveWait) -> &'static str {
    match wait {
        GiveWait::Read => "read",
        GiveWait::Transmit => "transmit",
    }
}

fn source_name(source: VcsSwapSource) -> &'static str {
    match source {
        VcsSwapSource::Message => "Message",
        VcsSwapSource::Epr => "Epr",
    }
}

fn vcs_state(swap: VcsState) -> &'static str {
    match swap {
        VcsState::SendSwap => "SendSwap }, transmit",
        VcsState::SwapAnswer => "SendSwap }, receive",
        VcsState::EvaluateSwap => "EvaluateSwap }, ask",
        VcsState::AcceptSwap => "AcceptSwap }, transmit",
        VcsState::RejectSwap => "RejectSwap }, transmit",
        VcsState::WaitForVconn => "WaitForVconn }, receive",
        VcsState::TurnOffVconn => "TurnOffVconn }, drive_vconn false",
        VcsState::TurnOnVconn => "TurnOnVconn }, drive_vconn true",
        VcsState::SendPsRdy => "SendPsRdy }, transmit",
        VcsState::VcsForceVconn => "VcsForceVconn }, drive_vconn true",
    }
}

#[derive(Clone, Copy)]
struct Waiting(State);

impl fmt::Display for Waiting {
    fn fmt<W: fmt::Write>(&self, f: &mut fmt::Formatter<W>) -> fmt::Result {
        match self.0 {
            State::Startup(wait) => f.write_str(startup(wait)),
            State::Discovery => f.write_str("Discovery, SourceCapability timer"),
            State::SendCapabilities(wait) => write!(f, "SendCapabilities, {}", exchange(wait)),
            State::Ready => f.write_str("Ready, wait"),
            State::Disabled(wait) => f.write_str(disabled(wait)),
            State::CapabilityResponse(denial) => f.write_str(capability_response(denial)),
            State::HardReset(wait) => f.write_str(hard_reset(wait)),
            State::HardResetReceived => f.write_str("HardResetReceived, PSHardReset timer"),
            State::TransitionToDefault(wait) => f.write_str(transition_to_default(wait)),
            State::GetSinkCap(wait) => f.write_str(get_sink_cap(wait)),
            State::WaitNewCapabilities => f.write_str("WaitNewCapabilities, wait"),
            State::EprKeepAlive => f.write_str("EprKeepAlive, transmit"),
            State::GiveSourceCap(Mode::Spr) => f.write_str("GiveSourceCap(Spr), transmit"),
            State::GiveSourceCap(Mode::Epr) => f.write_str("GiveSourceCap(Epr), transmit"),
            State::SendSoftReset(wait) => write!(f, "SendSoftReset, {}", exchange(wait)),
            State::SoftReset => f.write_str("SoftReset, transmit"),
            State::SendNotSupported => f.write_str("SendNotSupported, transmit"),
            State::NotSupportedReceived => f.write_str("NotSupportedReceived, inform"),
            State::DrpSwap(SwapState::Data(swap)) => f.write_str(data_role(swap)),
            State::DrpSwap(SwapState::FastPower(swap)) => f.write_str(fast_power(swap)),
            State::DrpGetSourceCap(mode, wait) => {
                let (mode, wait) = (mode_name(mode), get_wait(wait));
                write!(f, "DrpGetSourceCap({mode}), {wait}")
            }
            State::DrpGiveSinkCap(mode, wait) => {
                let (mode, wait) = (mode_name(mode), give_wait(wait));
                write!(f, "DrpGiveSinkCap({mode}), {wait}")
            }
            State::VconnSwap(source, swap) => {
                let (source, rest) = (source_name(source), vcs_state(swap));
                write!(f, "VconnSwap {{ source: {source}, state: {rest}")
            }
        }
    }
}

#[derive(Clone, Copy)]
pub(crate) struct Standing(pub(crate) Place);

impl fmt::Display for Standing {
    fn fmt<W: fmt::Write>(&self, f: &mut fmt::Formatter<W>) -> fmt::Result {
        match self.0 {
            Place::Waiting(state) => write!(f, "{}", Waiting(state)),
            Place::Negotiating(wait, request) => {
                write!(f, "{}{}", negotiation(wait), Requested(request))
            }
            Place::Stopped(_) | Place::HandedOver(_) | Place::Finished(_) => f.write_str("none"),
        }
    }
}
