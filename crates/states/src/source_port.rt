// PD 3.2 Sec. 8.3.3.2: Startup, SendCapabilities, Disabled, CapabilityResponse, WaitNewCapabilities.
ghost use Rattle.std.specs.Prelude.{◌≡◌};
ghost use Rattle.definition.specs.Next.{go, stop};
ghost use Rattle.definition.specs.Moves.{next};
ghost use Rattle.definition.specs.Outcomes.{when_done, when_heard};
ghost use Rattle.definition.specs.SourcePort as port;

use model::{
    Contract, Denial, DisabledWait, Event, Exchange, Finish, HardResetWait, Message, Mode, Move,
    Outcome, StartupWait, State, Timeout,
};

fn after_startup(wait: StartupWait) -> State
    ensures { when_done (go result) ≡ (port.startup_awaits wait).then }
{
    match wait {
        StartupWait::SwapSourceStart => State::Startup(StartupWait::SwappedVbus),
        StartupWait::SwappedVbus | StartupWait::Vbus => State::SendCapabilities(Exchange::Transmit),
    }
}

// PD 3.2 Sec. 8.3.3.2.1 (PE_SR_Startup)
pub fn startup(wait: StartupWait, outcome: Outcome) -> Move
    ensures { next result ≡ (port.startup_awaits wait).then outcome }
{
    outcomes::when_done(outcome, Move::To(after_startup(wait)))
}

// PD 3.2 Sec. 8.3.3.2.2 (PE_SRC_Discovery)
pub fn discovery(outcome: Outcome) -> Move
    ensures { next result ≡ (port.discovery_await).then outcome }
{
    outcomes::when_done(
        outcome,
        Move::To(State::SendCapabilities(Exchange::Transmit)),
    )
}

fn request_message(mode: Mode, message: Message) -> Move
    ensures { next result ≡ port.request_of mode message }
{
    match message {
        Message::Request(payload) if matches!(mode, Mode::Spr) => {
            payload.map_or(Move::Stop(model::UNEXPECTED_MESSAGE), Move::Negotiate)
        }
        Message::EprRequest(payload) if matches!(mode, Mode::Epr) => {
            payload.map_or(Move::Stop(model::UNEXPECTED_MESSAGE), Move::Negotiate)
        }
        _ => Move::Misfit,
    }
}

// Receive a Request or EPR Request, depending on the current mode.
fn wait_for_sink_request(mode: Mode, outcome: Outcome) -> Move
    ensures { next result ≡ when_heard (port.request_of mode) stop outcome }
{
    match replies::heard_of(outcome) {
        Some(Ok(message)) => request_message(mode, message),
        Some(Err(e)) => Move::Stop(e),
        None => Move::Misfit,
    }
}

// PD 3.2 Sec. 8.3.3.2.3 (PE_SRC_Send_Capabilities)
pub fn send_capabilities(mode: Mode, wait: Exchange, outcome: Outcome) -> Move
    ensures { next result ≡ (port.send_capabilities_awaits mode wait).then outcome }
{
    match wait {
        Exchange::Transmit => outcomes::when_sent(
            outcome,
            Move::To(State::SendCapabilities(Exchange::Receive)),
        ),
        Exchange::Receive => wait_for_sink_request(mode, outcome),
    }
}

fn safe_5v(outcome: Outcome) -> Move
    ensures { next result ≡ (port.disabled_awaits DisabledWait.Supply).then outcome }
{
    match outcome {
        Outcome::Done => Move::To(State::Disabled(DisabledWait::Receive)),
        Outcome::DpmFailed => Move::Stop(model::RX_HARD_RESET),
        // The Rust's `unwrap`
        Outcome::NoSafe => Move::Finish(Finish::NoSafeRequest),
        _ => Move::Misfit,
    }
}

#[tactic(auto, unfolding(definition::specs::SourcePort::disabled_failed))]
fn disabled_failed(e: u8) -> Move
    ensures { next result ≡ port.disabled_failed e }
{
    if e == model::RX_HARD_RESET {
        Move::To(State::HardReset(HardResetWait::Signal))
    } else {
        Move::To(State::Disabled(DisabledWait::Receive))
    }
}

// Only respond to `HardReset` Signaling.
fn receive_anything(outcome: Outcome) -> Move
    ensures { next result ≡ (port.disabled_awaits DisabledWait.Receive).then outcome }
{
    match replies::heard_of(outcome) {
        Some(Ok(_)) => Move::To(State::Disabled(DisabledWait::Receive)),
        Some(Err(e)) => disabled_failed(e),
        None => Move::Misfit,
    }
}

// PD 3.2 Sec. 8.3.3.2.7 (PE_SRC_Disabled)
pub fn disabled(wait: DisabledWait, outcome: Outcome) -> Move
    ensures { next result ≡ (port.disabled_awaits wait).then outcome }
{
    match wait {
        DisabledWait::Supply => safe_5v(outcome),
        DisabledWait::Receive => receive_anything(outcome),
    }
}

fn denied(contract: Contract, denial: Denial) -> State
    ensures { go result ≡ port.denied contract denial }
{
    match (contract, denial) {
        (Contract::Invalid, Denial::Reject) => State::HardReset(HardResetWait::Signal),
        (Contract::Explicit(_), _) => State::Ready,
        _ => State::WaitNewCapabilities,
    }
}

// PD 3.2 Sec. 8.3.3.2.8 (PE_SRC_Capability_Response)
pub fn capability_response(contract: Contract, denial: Denial, outcome: Outcome) -> Move
    ensures { next result ≡ (port.capability_response_awaits contract denial).then outcome }
{
    outcomes::when_sent(outcome, Move::To(denied(contract, denial)))
}

// PD 3.2 Sec. 8.3.3.2.13 (PE_SRC_Wait_New_Capabilities)
pub fn wait_new_capabilities(outcome: Outcome) -> Move
    ensures { next result ≡ (port.wait_new_capabilities_await).then outcome }
{
    match outcome {
        Outcome::Event(Event::UpdatedSourceCapabilities) => Move::To(State::SendCapabilities(
            Exchange::Transmit,
        )),
        Outcome::Event(_) | Outcome::Timeout(Timeout::FiveSeconds) => Move::To(
            State::WaitNewCapabilities,
        ),
        _ => Move::Misfit,
    }
}
