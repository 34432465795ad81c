// PD 3.2 Sec. 8.3.3.19.7.1 and 8.3.3.19.8.1: the capabilities of the other role.
ghost use Rattle.std.specs.Prelude.{◌≡◌};
ghost use Rattle.definition.specs.Moves.{next};
ghost use Rattle.definition.specs.DualRole as dual;

use model::{GetWait, GiveWait, Mode, Move, Outcome, State};
use replies::Reply;

// PD 3.2 Sec. 8.3.3.19.7.1 (PE_DR_SRC_Get_Source_Cap)
#[tactic(auto, unfolding(definition::specs::DualRole::get_failed))]
pub fn drp_get_source_cap(mode: Mode, wait: GetWait, outcome: Outcome) -> Move
    ensures { next result ≡ (dual.get_source_cap_awaits mode wait).then outcome }
{
    match wait {
        GetWait::Get => match replies::reply_of(outcome) {
            Reply::Done => Move::To(State::DrpGetSourceCap(mode, GetWait::Inform)),
            Reply::Failed(e) => outcomes::unless_timeout(
                e,
                Move::To(State::DrpGetSourceCap(mode, GetWait::InformNone)),
            ),
            _ => Move::Misfit,
        },
        GetWait::Inform | GetWait::InformNone => outcomes::when_done(
            outcome,
            Move::To(State::Ready),
        ),
    }
}

// PD 3.2 Sec. 8.3.3.19.8.1 (PE_DR_SRC_Give_Sink_Cap)
pub fn drp_give_sink_cap(mode: Mode, wait: GiveWait, outcome: Outcome) -> Move
    ensures { next result ≡ (dual.give_sink_cap_awaits mode wait).then outcome }
{
    match wait {
        GiveWait::Read => outcomes::when_done(
            outcome,
            Move::To(State::DrpGiveSinkCap(mode, GiveWait::Transmit)),
        ),
        GiveWait::Transmit => outcomes::when_sent(outcome, Move::To(State::Ready)),
    }
}
