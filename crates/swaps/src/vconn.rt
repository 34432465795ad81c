// `execute_vconn_swap_state`: PD 3.2 Sec. 8.3.3.20 VCONN Swap.
ghost use Rattle.std.specs.Prelude.{◌≡◌};
ghost use Rattle.definition.specs.Next.{go, writing, vconn_source_to};
ghost use Rattle.definition.specs.Moves.{next};
ghost use Rattle.model.specs.declared.place.Finish.{Finish};
ghost use Rattle.model.specs.declared.place.State.{State};
ghost use Rattle.definition.specs.Outcomes.{when_driven};
ghost use Rattle.definition.specs.VconnSwap.{ended, swapping, swap_answer, vconn_swap_awaits};

use crate::answers::answer_failed;
use model::{Change, Finish, Handover, Message, Move, Outcome, State, VcsState, VcsSwapSource};

fn swap(source: VcsSwapSource, state: VcsState) -> Move
    ensures { next result ≡ go (State.VconnSwap source state) }
{
    Move::To(State::VconnSwap(source, state))
}

// Where VCONN cannot be driven, the swap ends in error recovery.
fn when_driven(outcome: Outcome, then: Move) -> Move
    ensures { next result ≡ when_driven (next then) Finish.ReconnectionRequired outcome }
{
    outcomes::when_driven(outcome, then, Finish::ReconnectionRequired)
}

// Where the swap ends: Ready, or on with the EPR entry that asked for it.
fn end(source: VcsSwapSource) -> Move
    ensures { next result ≡ ended source }
{
    match source {
        VcsSwapSource::Message => Move::To(State::Ready),
        VcsSwapSource::Epr => Move::HandOver(Handover::EprDiscoverCable),
    }
}

// The same, once VCONN is driven: this port feeds it from now on, or no longer does.
fn end_fed(source: VcsSwapSource, vconn_source: bool) -> Move
    ensures { next result ≡ writing (vconn_source_to vconn_source) (ended source) }
{
    match source {
        VcsSwapSource::Message => Move::ReadyAs(Change::VconnSource(vconn_source)),
        VcsSwapSource::Epr => Move::DiscoverCable(vconn_source),
    }
}

fn accepted(source: VcsSwapSource, vconn_source: bool) -> Move
    ensures { next result ≡ swapping source vconn_source }
{
    if vconn_source {
        swap(source, VcsState::WaitForVconn)
    } else {
        swap(source, VcsState::TurnOnVconn)
    }
}

#[tactic(auto, unfolding(definition::specs::VconnSwap::swap_type))]
fn answer(source: VcsSwapSource, vconn_source: bool, message: Message) -> Move
    ensures { next result ≡ swap_answer source vconn_source message }
{
    match message {
        Message::Control(model::ACCEPT) => accepted(source, vconn_source),
        Message::Control(model::REJECT | model::WAIT) => Move::To(State::Ready),
        Message::Control(model::NOT_SUPPORTED) => Move::To(State::NotSupportedReceived),
        _ => Move::Stop(model::UNEXPECTED_MESSAGE),
    }
}

pub fn execute_vconn_swap_state(
    source: VcsSwapSource,
    state: VcsState,
    vconn_source: bool,
    outcome: Outcome,
) -> Move
    ensures { next result ≡ (vconn_swap_awaits source vconn_source state).then outcome }
{
    match state {
        // PD 3.2 Sec. 8.3.3.20.1 (PE_VCS_Send_Swap)
        VcsState::SendSwap => outcomes::when_sent(outcome, swap(source, VcsState::SwapAnswer)),
        VcsState::SwapAnswer => match replies::heard_of(outcome) {
            Some(Ok(message)) => answer(source, vconn_source, message),
            Some(Err(e)) => answer_failed(e),
            None => Move::Misfit,
        },
        // PD 3.2 Sec. 8.3.3.20.2 (PE_VCS_Evaluate_Swap)
        VcsState::EvaluateSwap => outcomes::when_asked(
            outcome,
            swap(source, VcsState::AcceptSwap),
            swap(source, VcsState::RejectSwap),
        ),
        // PD 3.2 Sec. 8.3.3.20.3 (PE_VCS_Accept_Swap)
        VcsState::AcceptSwap => outcomes::when_sent(outcome, accepted(source, vconn_source)),
        // PD 3.2 Sec. 8.3.3.20.4 (PE_VCS_Reject_Swap)
        VcsState::RejectSwap => outcomes::when_sent(outcome, end(source)),
        // PD 3.2 Sec. 8.3.3.20.5 (PE_VCS_Wait_for_Vconn)
        VcsState::WaitForVconn => outcomes::when_control(
            outcome,
            model::PS_RDY,
            swap(source, VcsState::TurnOffVconn),
        ),
        // PD 3.2 Sec. 8.3.3.20.6 (PE_VCS_Turn_Off_Vconn)
        VcsState::TurnOffVconn => when_driven(outcome, end_fed(source, false)),
        // PD 3.2 Sec. 8.3.3.20.7 (PE_VCS_Turn_On_Vconn)
        VcsState::TurnOnVconn => when_driven(outcome, Move::SendPsRdy(source)),
        // PD 3.2 Sec. 8.3.3.20.8 (PE_VCS_Send_PS_Rdy)
        VcsState::SendPsRdy => outcomes::when_sent(outcome, end(source)),
        // PD 3.2 Sec. 8.3.3.20.9 (PE_VCS_Force_Vconn)
        VcsState::VcsForceVconn => when_driven(outcome, end_fed(source, true)),
    }
}
