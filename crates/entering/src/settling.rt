// What an outcome or a target decided, carried out; and creation.
ghost use Rattle.std.specs.Prelude.{◌≡◌, true};
ghost use Rattle.definition.specs.Moves.{change_of, decided};
ghost use Rattle.definition.specs.Entering as entering;
ghost use Rattle.definition.specs.Entering.{begun, write};
ghost use Rattle.definition.specs.Engine as engine;
ghost use Rattle.definition.specs.Engine.{come};
ghost use Rattle.model.specs.declared.place.Place.{Place};
ghost use Rattle.model.specs.declared.place.State.{State};
ghost use Rattle.model.specs.declared.place.VcsState.{VcsState};

use crate::negotiating::{negotiate_capability, ready};
use crate::standing::{enter, finish, hand_over, stand, startup, stop};
use model::{
    Change, Decided, Handover, Move, Record, Settings, State, Step, VcsState, VcsSwapSource,
};
use records::{blank, fed, first_wait, with_data_role, with_mode};

fn changed(record: Record, change: Change) -> Record
    ensures { result ≡ write (change_of change) «record» }
{
    match change {
        Change::DataRole(role) => with_data_role(record, role),
        Change::VconnSource(vconn_source) => fed(record, vconn_source),
    }
}

// PD 3.2 Sec. 8.3.3.20.8 (PE_VCS_Send_PS_Rdy), with VCONN on.
#[tactic(auto, unfolding(definition::specs::Engine::tell, definition::specs::States::await_of))]
fn send_ps_rdy(record: Record, source: VcsSwapSource) -> Step<Record>
    ensures { result ≡ come (entering.fed true «record») (Place.Waiting (State.VconnSwap source VcsState.SendPsRdy)) }
{
    stand(
        fed(record, true),
        State::VconnSwap(source, VcsState::SendPsRdy),
        actions::send_control(model::PS_RDY),
    )
}

// A misfit is refused with this number.
#[tactic(auto, using(crate::proofs::Entries::by_its_entry))]
pub fn settle(number: u8, record: Record, what: Decided) -> Step<Record>
    ensures { result ≡ engine.settle number «record» (decided what) }
{
    let next = with_mode(record, what.mode);
    match what.then {
        Move::To(state) => enter(next, state),
        Move::Negotiate(request) => negotiate_capability(next, request),
        Move::ReadyAs(change) => ready(changed(next, change)),
        Move::SendPsRdy(source) => send_ps_rdy(next, source),
        Move::DiscoverCable(vconn_source) => hand_over(
            fed(next, vconn_source),
            Handover::EprDiscoverCable,
        ),
        Move::Stop(e) => stop(next, e),
        Move::Finish(result) => finish(next, result),
        Move::HandOver(state) => hand_over(next, state),
        Move::Misfit => refusals::refuse(record, number),
    }
}

// A new record enters Startup.
pub fn begin(settings: Settings) -> Step<Record>
    ensures { result ≡ engine.tell (begun settings) }
{
    startup(blank(settings), first_wait(settings.role_swapped))
}
