// PD 3.2 Sec. 8.3.3.2.6 (PE_SRC_Ready): the DPM's events and the timers that run. Its messages are `dispatch`'s.
ghost use Rattle.std.specs.Prelude.{◌≡◌};
ghost use Rattle.notation.specs.Rows.{◌⇒◌∣◌};
ghost use Rattle.definition.specs.Next.{to_hard_reset, misfit};
ghost use Rattle.definition.specs.Moves.{next};
ghost use Rattle.definition.specs.SourcePort as port;

use model::{
    DataRoleSwap, Event, Exchange, GetWait, Handover, HardResetWait, Mode, Move, SinkCapWait,
    State, SwapState, Timeout, VcsState, VcsSwapSource,
};

pub fn dpm_event(event: Event) -> Move
    ensures { next result ≡ port.event event }
{
    match event {
        Event::None => Move::To(State::Ready),
        Event::UpdatedSourceCapabilities => Move::To(State::SendCapabilities(Exchange::Transmit)),
        Event::RequestSinkCapabilities => Move::To(State::GetSinkCap(SinkCapWait::Transmit)),
        Event::RequestSourceCapabilities => Move::To(State::DrpGetSourceCap(
            Mode::Spr,
            GetWait::Get,
        )),
        Event::RequestEprSourceCapabilities => Move::To(State::DrpGetSourceCap(
            Mode::Epr,
            GetWait::Get,
        )),
        Event::ExitEprMode => Move::HandOver(Handover::EprSendExit),
        Event::RequestVconnSwap => Move::To(State::VconnSwap(
            VcsSwapSource::Message,
            VcsState::SendSwap,
        )),
        Event::RequestDataRoleSwap => Move::To(State::DrpSwap(SwapState::Data(DataRoleSwap::Send))),
        Event::RequestPowerRoleSwap => Move::HandOver(Handover::PowerSend),
    }
}

fn runs(mode: Mode, pps: bool, timeout: Timeout) -> bool
    ensures { (result ⇒ to_hard_reset ∣ misfit) ≡ port.ready_timeout mode pps timeout }
{
    match timeout {
        Timeout::Pps => pps,
        Timeout::KeepAlive => matches!(mode, Mode::Epr),
        Timeout::FiveSeconds => false,
    }
}

// A timer that does not run cannot time out.
pub fn ready_timeout(mode: Mode, pps: bool, timeout: Timeout) -> Move
    ensures { next result ≡ port.ready_timeout mode pps timeout }
{
    if runs(mode, pps, timeout) {
        Move::To(State::HardReset(HardResetWait::Signal))
    } else {
        Move::Misfit
    }
}
