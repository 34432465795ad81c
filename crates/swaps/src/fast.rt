// `execute_fast_power_role_swap_state`: PD 3.2 Sec. 8.3.3.19.5 Source to Sink Fast Role Swap.
ghost use Rattle.std.specs.Prelude.{◌≡◌};
ghost use Rattle.definition.specs.Next.{go};
ghost use Rattle.definition.specs.Moves.{next};
ghost use Rattle.definition.specs.DualRole.{fast_swap_awaits};
ghost use Rattle.model.specs.declared.place.State.{State};
ghost use Rattle.model.specs.declared.place.SwapState.{SwapState};

use model::{FastPowerRoleSwap, Finish, HardResetWait, Move, Outcome, State, SwapState};
use replies::Reply;

fn swap(state: FastPowerRoleSwap) -> Move
    ensures { next result ≡ go (State.DrpSwap (SwapState.FastPower state)) }
{
    Move::To(State::DrpSwap(SwapState::FastPower(state)))
}

pub fn execute_fast_power_role_swap_state(state: FastPowerRoleSwap, outcome: Outcome) -> Move
    ensures { next result ≡ (fast_swap_awaits state).then outcome }
{
    match state {
        // PD 3.2 Sec. 8.3.3.19.5.2 (PE_FRS_SRC_SNK_Evaluate_Swap)
        FastPowerRoleSwap::Evaluate => outcomes::when_asked(
            outcome,
            swap(FastPowerRoleSwap::Accept),
            Move::To(State::HardReset(HardResetWait::Signal)),
        ),
        // PD 3.2 Sec. 8.3.3.19.5.3 (PE_FRS_SRC_Accept)
        FastPowerRoleSwap::Accept => match replies::reply_of(outcome) {
            Reply::Done => swap(FastPowerRoleSwap::TransitionToOff),
            // Soft Reset shall not be initiated in this case.
            Reply::Failed(_) => Move::To(State::HardReset(HardResetWait::Signal)),
            _ => Move::Misfit,
        },
        // PD 3.2 Sec. 8.3.3.19.5.4 (PE_FRS_SRC_Transition_to_off)
        FastPowerRoleSwap::TransitionToOff => outcomes::when_done(
            outcome,
            swap(FastPowerRoleSwap::AssertRd),
        ),
        // PD 3.2 Sec. 8.3.3.19.5.5 (PE_FRS_SRC_Assert_Rd)
        FastPowerRoleSwap::AssertRd => outcomes::when_done(
            outcome,
            swap(FastPowerRoleSwap::WaitSourceOn),
        ),
        // PD 3.2 Sec. 8.3.3.19.5.6 (PE_FRS_SRC_Wait_Source_on)
        FastPowerRoleSwap::WaitSourceOn => outcomes::when_sent(
            outcome,
            swap(FastPowerRoleSwap::SourceOn),
        ),
        FastPowerRoleSwap::SourceOn => outcomes::when_control(
            outcome,
            model::PS_RDY,
            Move::Finish(Finish::SwapToSink),
        ),
    }
}
