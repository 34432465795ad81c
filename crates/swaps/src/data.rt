// `execute_data_role_swap_state`: PD 3.2 Sec. 8.3.3.19.1 DFP to UFP and Sec. 8.3.3.19.2 UFP to DFP Data Role Swap, whose states have the same numbers.
ghost use Rattle.std.specs.Prelude.{◌≡◌};
ghost use Rattle.definition.specs.Next.{go};
ghost use Rattle.definition.specs.Moves.{next};
ghost use Rattle.definition.specs.DualRole.{opposite, role_answer, data_swap_awaits};
ghost use Rattle.model.specs.declared.place.State.{State};
ghost use Rattle.model.specs.declared.place.SwapState.{SwapState};

use crate::answers::answer_failed;
use model::{Change, DataRole, DataRoleSwap, Message, Move, Outcome, State, SwapState};

fn swap(state: DataRoleSwap) -> Move
    ensures { next result ≡ go (State.DrpSwap (SwapState.Data state)) }
{
    Move::To(State::DrpSwap(SwapState::Data(state)))
}

// `DataRole::from(!bool::from(role))`
fn new_role(role: DataRole) -> DataRole
    ensures { result ≡ opposite role }
{
    match role {
        DataRole::Ufp => DataRole::Dfp,
        DataRole::Dfp => DataRole::Ufp,
    }
}

// A message that is none of the three reaches the host as Failed(2).
#[tactic(auto, unfolding(definition::specs::DualRole::role_answer_type))]
fn answer(message: Message) -> Move
    ensures { next result ≡ role_answer message }
{
    match message {
        Message::Control(model::ACCEPT) => swap(DataRoleSwap::Change),
        Message::Control(model::REJECT | model::WAIT) => Move::To(State::Ready),
        _ => Move::Misfit,
    }
}

pub fn execute_data_role_swap_state(role: DataRole, state: DataRoleSwap, outcome: Outcome) -> Move
    ensures { next result ≡ (data_swap_awaits role state).then outcome }
{
    match state {
        // PD 3.2 Sec. 8.3.3.19.1.2 (PE_DRS_DFP_UFP_Evaluate_Swap), 8.3.3.19.2.2 (PE_DRS_UFP_DFP_Evaluate_Swap)
        DataRoleSwap::Evaluate => outcomes::when_asked(
            outcome,
            swap(DataRoleSwap::Accept),
            swap(DataRoleSwap::Reject),
        ),
        // PD 3.2 Sec. 8.3.3.19.1.3 (PE_DRS_DFP_UFP_Accept_Swap), 8.3.3.19.2.3 (PE_DRS_UFP_DFP_Accept_Swap)
        DataRoleSwap::Accept => outcomes::when_sent(outcome, swap(DataRoleSwap::Change)),
        // PD 3.2 Sec. 8.3.3.19.1.4 (PE_DRS_DFP_UFP_Change_to_UFP_Swap), 8.3.3.19.2.4 (PE_DRS_UFP_DFP_Change_to_DFP_Swap): once the
        // DPM says that the port has changed
        DataRoleSwap::Change => outcomes::when_done(
            outcome,
            Move::ReadyAs(Change::DataRole(new_role(role))),
        ),
        // PD 3.2 Sec. 8.3.3.19.1.5 (PE_DRS_DFP_UFP_Send_Swap), 8.3.3.19.2.5 (PE_DRS_UFP_DFP_Send_Swap)
        DataRoleSwap::Send => outcomes::when_sent(outcome, swap(DataRoleSwap::Answer)),
        DataRoleSwap::Answer => match replies::heard_of(outcome) {
            Some(Ok(message)) => answer(message),
            Some(Err(e)) => answer_failed(e),
            None => Move::Misfit,
        },
        // PD 3.2 Sec. 8.3.3.19.1.6 (PE_DRS_DFP_UFP_Reject_Swap), 8.3.3.19.2.6 (PE_DRS_UFP_DFP_Reject_Swap)
        DataRoleSwap::Reject => outcomes::when_sent(outcome, Move::To(State::Ready)),
    }
}
