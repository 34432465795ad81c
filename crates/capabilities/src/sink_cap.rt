// PD 3.2 Sec. 8.3.3.2.12 (PE_SRC_Get_Sink_Cap)
ghost use Rattle.std.specs.Prelude.{◌≡◌};
ghost use Rattle.definition.specs.Moves.{next};
ghost use Rattle.definition.specs.SourcePort as port;

use model::{Message, Mode, Move, Outcome, SinkCapWait, State};

// A bad payload is handled gracefully: the DPM is told that there is nothing.
fn tell(found: bool) -> Move
    ensures { next result ≡ port.sink_cap_told found }
{
    if found {
        Move::To(State::GetSinkCap(SinkCapWait::Inform))
    } else {
        Move::To(State::GetSinkCap(SinkCapWait::InformNone))
    }
}

fn sink_capabilities(mode: Mode, message: Message) -> Move
    ensures { next result ≡ port.sink_cap_of mode message }
{
    match message {
        Message::SinkCapabilities(good) if matches!(mode, Mode::Spr) => tell(good),
        Message::EprSinkCapabilities(good) if matches!(mode, Mode::Epr) => tell(good),
        _ => Move::Misfit,
    }
}

#[tactic(auto, unfolding(definition::specs::SourcePort::sink_cap_failed))]
fn sink_cap_failed(e: u8) -> Move
    ensures { next result ≡ port.sink_cap_failed e }
{
    outcomes::unless_timeout(e, Move::To(State::GetSinkCap(SinkCapWait::InformNone)))
}

pub fn get_sink_cap(mode: Mode, wait: SinkCapWait, outcome: Outcome) -> Move
    ensures { next result ≡ (port.get_sink_cap_awaits mode wait).then outcome }
{
    match wait {
        SinkCapWait::Transmit => outcomes::when_sent(
            outcome,
            Move::To(State::GetSinkCap(SinkCapWait::Receive)),
        ),
        SinkCapWait::Receive => match replies::heard_of(outcome) {
            Some(Ok(message)) => sink_capabilities(mode, message),
            Some(Err(e)) => sink_cap_failed(e),
            None => Move::Misfit,
        },
        SinkCapWait::Inform | SinkCapWait::InformNone => outcomes::when_done(
            outcome,
            Move::To(State::Ready),
        ),
    }
}
