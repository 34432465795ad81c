// PD 3.2 Sec. 8.3.3.2.9 and 8.3.3.2.11, the hard reset and what follows it; Sec. 8.3.3.4, the soft reset.
ghost use Rattle.std.specs.Prelude.{◌≡◌};
ghost use Rattle.definition.specs.Next.{go};
ghost use Rattle.definition.specs.Moves.{next};
ghost use Rattle.definition.specs.Outcomes.{when_driven};
ghost use Rattle.model.specs.declared.place.Finish.{Finish};
ghost use Rattle.definition.specs.SourcePort as port;
ghost use Rattle.definition.specs.SoftReset as soft;

use model::{DefaultWait, Exchange, Finish, HardResetWait, Move, Outcome, StartupWait, State};

// PD 3.2 Sec. 8.3.3.2.9 (PE_SRC_Hard_Reset). Its timer is the one of 8.3.3.2.10, and leads on as there.
pub fn hard_reset(wait: HardResetWait, outcome: Outcome) -> Move
    ensures { next result ≡ (port.hard_reset_awaits wait).then outcome }
{
    match wait {
        HardResetWait::Signal => outcomes::when_sent(
            outcome,
            Move::To(State::HardReset(HardResetWait::Timer)),
        ),
        HardResetWait::Timer => hard_reset_received(outcome),
    }
}

// PD 3.2 Sec. 8.3.3.2.10 (PE_SRC_Hard_Reset_Received). A function a state, also where two differ in the next state alone.
pub fn hard_reset_received(outcome: Outcome) -> Move
    ensures { next result ≡ (port.hard_reset_received_await).then outcome }
{
    outcomes::when_done(
        outcome,
        Move::To(State::TransitionToDefault(DefaultWait::VconnOff)),
    )
}

fn after_default(wait: DefaultWait) -> State
    ensures { when_driven (go result) Finish.PortPartnerUnresponsive ≡ (port.transition_to_default_awaits wait).then }
{
    match wait {
        DefaultWait::VconnOff => State::TransitionToDefault(DefaultWait::HardReset),
        DefaultWait::HardReset => State::TransitionToDefault(DefaultWait::VconnOn),
        // Startup exits EPR mode and resets the contract to default.
        DefaultWait::VconnOn => State::Startup(StartupWait::Vbus),
    }
}

// PD 3.2 Sec. 8.3.3.2.11 (PE_SRC_Transition_to_default)
pub fn transition_to_default(wait: DefaultWait, outcome: Outcome) -> Move
    ensures { next result ≡ (port.transition_to_default_awaits wait).then outcome }
{
    outcomes::when_driven(
        outcome,
        Move::To(after_default(wait)),
        Finish::PortPartnerUnresponsive,
    )
}

// PD 3.2 Sec. 8.3.3.4.1.1 (PE_SRC_Send_Soft_Reset)
pub fn send_soft_reset(wait: Exchange, outcome: Outcome) -> Move
    ensures { next result ≡ (soft.send_soft_reset_awaits wait).then outcome }
{
    match wait {
        Exchange::Transmit => outcomes::when_sent(
            outcome,
            Move::To(State::SendSoftReset(Exchange::Receive)),
        ),
        Exchange::Receive => outcomes::when_control(
            outcome,
            model::ACCEPT,
            Move::To(State::SendCapabilities(Exchange::Transmit)),
        ),
    }
}

// PD 3.2 Sec. 8.3.3.4.1.2 (PE_SRC_Soft_Reset)
pub fn soft_reset(outcome: Outcome) -> Move
    ensures { next result ≡ (soft.soft_reset_await).then outcome }
{
    outcomes::when_sent(
        outcome,
        Move::To(State::SendCapabilities(Exchange::Transmit)),
    )
}
