// `update_state`, from the await at which it stood to what that leads to.
ghost use Rattle.std.specs.Prelude.{◌≡◌};
ghost use Rattle.definition.specs.Next.{to_ready};
ghost use Rattle.definition.specs.Moves.{next};
ghost use Rattle.definition.specs.Outcomes.{when_done, when_sent};
ghost use Rattle.definition.specs.Actions.{pps};
ghost use Rattle.definition.specs.SourcePort.{ready_await};
ghost use Rattle.definition.specs.DualRole.{drp_swap_awaits};
ghost use Rattle.definition.specs.States.{after};

use crate::ready::{dpm_event, ready_timeout};
use crate::resets::{
    hard_reset, hard_reset_received, send_soft_reset, soft_reset, transition_to_default,
};
use crate::source_port::{
    capability_response, disabled, discovery, send_capabilities, startup, wait_new_capabilities,
};
use model::{Contract, DataRole, Decided, Mode, Move, Outcome, Record, State, SwapState};

// PD 3.2 Sec. 8.3.3.2.6 (PE_SRC_Ready)
fn ready(mode: Mode, contract: Contract, dual_role: bool, outcome: Outcome) -> Move
    ensures { next result ≡ (ready_await mode (pps contract) dual_role).then outcome }
{
    match outcome {
        Outcome::Failed(e) => Move::Stop(e),
        Outcome::Message(message) => dispatch::match_message_to_state(mode, dual_role, message),
        Outcome::Event(event) => dpm_event(event),
        Outcome::Timeout(timeout) => ready_timeout(mode, actions::is_pps(contract), timeout),
        _ => Move::Misfit,
    }
}

// One message is sent, and the port is ready again.
fn back_to_ready(outcome: Outcome) -> Move
    ensures { next result ≡ when_sent to_ready outcome }
{
    outcomes::when_sent(outcome, Move::To(State::Ready))
}

// PD 3.2 Sec. 8.3.3.6.1.2 (PE_SRC_Not_Supported_Received)
fn not_supported_received(outcome: Outcome) -> Move
    ensures { next result ≡ when_done to_ready outcome }
{
    outcomes::when_done(outcome, Move::To(State::Ready))
}

// PD 3.2 Sec. 8.3.3.19 Dual-Role Port States
fn drp_swap(role: DataRole, swap: SwapState, outcome: Outcome) -> Move
    ensures { next result ≡ (drp_swap_awaits role swap).then outcome }
{
    match swap {
        SwapState::Data(state) => swaps::execute_data_role_swap_state(role, state, outcome),
        SwapState::FastPower(state) => swaps::execute_fast_power_role_swap_state(state, outcome),
    }
}

#[tactic(auto, unfolding(definition::specs::States::await_of))]
fn leads_to(record: &Record, state: State, outcome: Outcome) -> Move
    ensures { next result ≡ after «record».now state outcome }
{
    match state {
        State::Startup(wait) => startup(wait, outcome),
        State::Discovery => discovery(outcome),
        State::SendCapabilities(wait) => send_capabilities(record.mode, wait, outcome),
        State::Ready => ready(record.mode, record.contract, record.port.dual_role, outcome),
        State::Disabled(wait) => disabled(wait, outcome),
        State::CapabilityResponse(denial) => capability_response(record.contract, denial, outcome),
        State::HardReset(wait) => hard_reset(wait, outcome),
        State::HardResetReceived => hard_reset_received(outcome),
        State::TransitionToDefault(wait) => transition_to_default(wait, outcome),
        State::GetSinkCap(wait) => capabilities::get_sink_cap(record.mode, wait, outcome),
        State::WaitNewCapabilities => wait_new_capabilities(outcome),
        // An arm a state, as in the definition's table: these three in one arm cost 3 instructions an event (229.0 busy, 180.2 refused, 230.7 resets, where
        // this form has 225.8, 178.4, 227.8).
        State::EprKeepAlive => back_to_ready(outcome),
        State::GiveSourceCap(_) => back_to_ready(outcome),
        State::SendSoftReset(wait) => send_soft_reset(wait, outcome),
        State::SoftReset => soft_reset(outcome),
        State::SendNotSupported => back_to_ready(outcome),
        State::NotSupportedReceived => not_supported_received(outcome),
        State::DrpSwap(swap) => drp_swap(record.data_role, swap, outcome),
        State::DrpGetSourceCap(kind, wait) => capabilities::drp_get_source_cap(kind, wait, outcome),
        State::DrpGiveSinkCap(kind, wait) => capabilities::drp_give_sink_cap(kind, wait, outcome),
        State::VconnSwap(by, swap) => swaps::execute_vconn_swap_state(
            by,
            swap,
            record.vconn_source,
            outcome,
        ),
    }
}

// What an outcome decides in a state. The record keeps its mode.
pub fn update_state(record: &Record, state: State, outcome: Outcome) -> Decided
    ensures mode_value { result.mode ≡ «record».now.mode }
    ensures then_value { next result.then ≡ after «record».now state outcome }
{
    Decided {
        mode: record.mode,
        then: leads_to(record, state, outcome),
    }
}
