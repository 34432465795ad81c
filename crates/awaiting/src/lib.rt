// The action that each state awaits. A state's action carries no request.
#![tactic(auto)]

ghost use Rattle.std.specs.Prelude.{◌≡◌};
ghost use Rattle.definition.specs.Actions as actions;
ghost use Rattle.definition.specs.SourcePort as port;
ghost use Rattle.definition.specs.SoftReset as soft;
ghost use Rattle.definition.specs.DualRole as dual;
ghost use Rattle.awaiting.specs.Issued.{awaited_in, vconn_swap_action};

use actions::{action, send_control};
use model::{
    Action, DataRole, DataRoleSwap, DefaultWait, Denial, DisabledWait, Exchange, FastPowerRoleSwap,
    GetWait, GiveWait, HardResetWait, Mode, Setting, SinkCapWait, StartupWait, State, SwapState,
    VcsState,
};

// Argument 1 where the PPS timer runs, plus 2 where the keep-alive timer does.
pub fn ready_wait(mode: Mode, pps: bool) -> Action
    ensures { result ≡ actions.ready_wait mode pps }
{
    action(model::READY_WAIT, pps as u8 + 2 * mode as u8)
}

fn startup(wait: StartupWait) -> Action
    ensures { result ≡ actions.awaited (port.startup_awaits wait).issues }
{
    match wait {
        StartupWait::SwapSourceStart => action(model::TIMER, model::SWAP_SOURCE_START),
        StartupWait::SwappedVbus | StartupWait::Vbus => action(model::WAIT_FOR_VBUS, 0),
    }
}

fn send_capabilities(mode: Mode, wait: Exchange) -> Action
    ensures { result ≡ actions.awaited (port.send_capabilities_awaits mode wait).issues }
{
    match wait {
        Exchange::Transmit => action(model::SEND_CAPABILITIES, mode as u8),
        Exchange::Receive => action(model::AWAIT_REQUEST, mode as u8),
    }
}

fn disabled(wait: DisabledWait) -> Action
    ensures { result ≡ actions.awaited (port.disabled_awaits wait).issues }
{
    match wait {
        DisabledWait::Supply => action(model::SUPPLY_SAFE_5V, 0),
        DisabledWait::Receive => action(model::RECEIVE_ANYTHING, 0),
    }
}

// The numbers have names, so that a match says more than `denial as u8` over an enum with the discriminants 4 and 12.
fn capability_response(denial: Denial) -> Action
    ensures { result ≡ actions.send_control (port.denial_type denial) }
{
    match denial {
        Denial::Reject => send_control(model::REJECT),
        Denial::Wait => send_control(model::WAIT),
    }
}

fn hard_reset(wait: HardResetWait) -> Action
    ensures { result ≡ actions.awaited (port.hard_reset_awaits wait).issues }
{
    match wait {
        HardResetWait::Signal => action(model::HARD_RESET_SIGNALLING, 0),
        HardResetWait::Timer => action(model::TIMER, model::PS_HARD_RESET),
    }
}

fn transition_to_default(wait: DefaultWait) -> Action
    ensures { result ≡ actions.awaited (port.transition_to_default_awaits wait).issues }
{
    match wait {
        DefaultWait::VconnOff => action(model::DRIVE_VCONN, 0),
        DefaultWait::HardReset => action(model::DPM_HARD_RESET, 0),
        DefaultWait::VconnOn => action(model::DRIVE_VCONN, 1),
    }
}

fn get_sink_cap(mode: Mode, wait: SinkCapWait) -> Action
    ensures { result ≡ actions.awaited (port.get_sink_cap_awaits mode wait).issues }
{
    match wait {
        SinkCapWait::Transmit => match mode {
            Mode::Spr => send_control(model::GET_SINK_CAP),
            Mode::Epr => action(model::SEND_EXTENDED_CONTROL, model::EPR_GET_SINK_CAP),
        },
        SinkCapWait::Receive => action(model::RECEIVE, 1 + mode as u8),
        SinkCapWait::Inform => action(model::INFORM, 1 + mode as u8),
        SinkCapWait::InformNone => action(model::INFORM, 17 + mode as u8),
    }
}

// "crate", as it stands: the kind of the mode. "standard": the kind that was asked for.
fn give_source_cap(setting: Setting, mode: Mode, asked: Mode) -> Action
    ensures { result ≡ actions.awaited (port.give_source_cap_await setting mode asked).issues }
{
    match setting {
        Setting::Crate => action(model::SEND_CAPABILITIES, mode as u8),
        Setting::Standard => action(model::SEND_CAPABILITIES, asked as u8),
    }
}

fn send_soft_reset(wait: Exchange) -> Action
    ensures { result ≡ actions.awaited (soft.send_soft_reset_awaits wait).issues }
{
    match wait {
        Exchange::Transmit => send_control(model::SOFT_RESET),
        Exchange::Receive => action(model::RECEIVE, 3),
    }
}

// The number of the role that a swap leads to. `swaps::new_role` gives the role itself: neither crate stands on the other (docs/DECISIONS.md, 73),
// and swaps/swap_keeps_role needs a match there.
fn new_role(role: DataRole) -> u8
    ensures { result ≡ actions.role_number (dual.opposite role) }
{
    match role {
        DataRole::Ufp => DataRole::Dfp as u8,
        DataRole::Dfp => DataRole::Ufp as u8,
    }
}

fn data_swap(role: DataRole, state: DataRoleSwap) -> Action
    ensures { result ≡ actions.awaited (dual.data_swap_awaits role state).issues }
{
    match state {
        DataRoleSwap::Evaluate => action(model::ASK_DATA_SWAP, 0),
        DataRoleSwap::Accept => send_control(model::ACCEPT),
        DataRoleSwap::Change => action(model::SWAP_DATA_ROLE, new_role(role)),
        DataRoleSwap::Send => send_control(model::DR_SWAP),
        DataRoleSwap::Answer => action(model::AWAIT_SWAP_ANSWER, 0),
        DataRoleSwap::Reject => send_control(model::REJECT),
    }
}

fn fast_swap(state: FastPowerRoleSwap) -> Action
    ensures { result ≡ actions.awaited (dual.fast_swap_awaits state).issues }
{
    match state {
        FastPowerRoleSwap::Evaluate => action(model::ASK_FR_SWAP_SIGNALED, 0),
        FastPowerRoleSwap::Accept => send_control(model::ACCEPT),
        FastPowerRoleSwap::TransitionToOff => action(model::DISCHARGE_VBUS, 0),
        FastPowerRoleSwap::AssertRd => action(model::CC_SINK, 0),
        FastPowerRoleSwap::WaitSourceOn => send_control(model::PS_RDY),
        FastPowerRoleSwap::SourceOn => action(model::RECEIVE, 4),
    }
}

fn get_source_cap(mode: Mode, wait: GetWait) -> Action
    ensures { result ≡ actions.awaited (dual.get_source_cap_awaits mode wait).issues }
{
    match wait {
        GetWait::Get => action(model::GET_REMOTE_CAPABILITIES, mode as u8),
        GetWait::Inform => action(model::INFORM, 3),
        GetWait::InformNone => action(model::INFORM, 19),
    }
}

fn give_sink_cap(mode: Mode, wait: GiveWait) -> Action
    ensures { result ≡ actions.awaited (dual.give_sink_cap_awaits mode wait).issues }
{
    match wait {
        GiveWait::Read => action(model::READ_SINK_CAPABILITIES, 0),
        GiveWait::Transmit => action(model::SEND_SINK_CAPABILITIES, mode as u8),
    }
}

fn vconn_swap(state: VcsState) -> Action
    ensures { result ≡ vconn_swap_action state }
{
    match state {
        VcsState::SendSwap => send_control(model::VCONN_SWAP),
        VcsState::SwapAnswer => action(model::RECEIVE, 6),
        VcsState::EvaluateSwap => action(model::ASK_VCONN_SWAP, 0),
        VcsState::AcceptSwap => send_control(model::ACCEPT),
        VcsState::RejectSwap => send_control(model::REJECT),
        VcsState::WaitForVconn => action(model::RECEIVE, 5),
        VcsState::TurnOffVconn => action(model::DRIVE_VCONN, 0),
        VcsState::TurnOnVconn => action(model::DRIVE_VCONN, 1),
        VcsState::SendPsRdy => send_control(model::PS_RDY),
        VcsState::VcsForceVconn => action(model::DRIVE_VCONN, 1),
    }
}

// The awaited action alone: the protocol reset before it is `entering`'s. Four values and no record: that it depends on these alone is `issued_alike`.
#[tactic(auto, unfolding(crate::specs::Issued::awaited_in, definition::specs::States::await_of))]
pub fn awaited(mode: Mode, pps: bool, role: DataRole, setting: Setting, state: State) -> Action
    ensures { result ≡ awaited_in mode pps role setting state }
{
    match state {
        State::Startup(wait) => startup(wait),
        State::Discovery => action(model::TIMER, model::SOURCE_CAPABILITY),
        State::SendCapabilities(wait) => send_capabilities(mode, wait),
        State::Ready => ready_wait(mode, pps),
        State::Disabled(wait) => disabled(wait),
        State::CapabilityResponse(denial) => capability_response(denial),
        State::HardReset(wait) => hard_reset(wait),
        State::HardResetReceived => action(model::TIMER, model::PS_HARD_RESET),
        State::TransitionToDefault(wait) => transition_to_default(wait),
        State::GetSinkCap(wait) => get_sink_cap(mode, wait),
        State::WaitNewCapabilities => action(model::AWAIT_NEW_CAPABILITIES, 0),
        State::EprKeepAlive => action(model::SEND_EXTENDED_CONTROL, model::EPR_KEEP_ALIVE_ACK),
        State::GiveSourceCap(asked) => give_source_cap(setting, mode, asked),
        State::SendSoftReset(wait) => send_soft_reset(wait),
        State::SoftReset => send_control(model::ACCEPT),
        State::SendNotSupported => send_control(model::NOT_SUPPORTED),
        State::NotSupportedReceived => action(model::INFORM, 4),
        // Not in a function of its own: a swap state of two bytes that is handed on costs 11 instructions an event (docs/DECISIONS.md).
        State::DrpSwap(swap) => match swap {
            SwapState::Data(state) => data_swap(role, state),
            SwapState::FastPower(state) => fast_swap(state),
        },
        State::DrpGetSourceCap(kind, wait) => get_source_cap(kind, wait),
        State::DrpGiveSinkCap(kind, wait) => give_sink_cap(kind, wait),
        State::VconnSwap(_, swap) => vconn_swap(swap),
    }
}
