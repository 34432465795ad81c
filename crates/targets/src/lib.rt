// Where the host may bring a record back to: the targets and mode changes of a re-entry. One that is not allowed is R6.
#![tactic(auto)]

ghost use Rattle.std.specs.Prelude.{◌≡◌};
ghost use Rattle.definition.specs.Moves.{next};
ghost use Rattle.definition.specs.Refusals as refusals;

use model::{
    Decided, Exchange, Finish, HardResetWait, Mode, Move, StartupWait, State, VcsState,
    VcsSwapSource,
};

fn if_handed_over(handed_over: bool, then: Move) -> Move
    ensures { next result ≡ refusals.if_handed_over handed_over (next then) }
{
    if handed_over { then } else { Move::Misfit }
}

// Document 01's targets, by its numbers, of which any may come; one that is not allowed is a misfit.
#[tactic(auto, unfolding(definition::specs::Refusals::target))]
fn target(handed_over: bool, number: u8) -> Move
    ensures { next result ≡ refusals.target handed_over number }
{
    match number {
        0 => Move::To(State::Discovery),
        1 => Move::To(State::SendCapabilities(Exchange::Transmit)),
        2 => Move::To(State::Ready),
        3 => Move::To(State::HardReset(HardResetWait::Signal)),
        4 => Move::To(State::HardResetReceived),
        5 => Move::To(State::SendSoftReset(Exchange::Transmit)),
        6 => Move::To(State::SoftReset),
        7 => Move::To(State::SendNotSupported),
        // ErrorRecovery, PD 3.2 Sec. 8.3.3.28.1
        8 => Move::Finish(Finish::ReconnectionRequired),
        9 => Move::To(State::Startup(StartupWait::Vbus)),
        10 => if_handed_over(
            handed_over,
            Move::To(State::VconnSwap(VcsSwapSource::Epr, VcsState::SendSwap)),
        ),
        // PrSwapToSinkStartup
        11 => if_handed_over(handed_over, Move::Finish(Finish::SwapToSink)),
        _ => Move::Misfit,
    }
}

#[tactic(auto, unfolding(definition::specs::Refusals::change_allowed))]
fn change_allowed(handed_over: bool, change: u16) -> bool
    ensures { result ≡ refusals.change_allowed handed_over change }
{
    match change {
        0 => true,
        1 | 2 => handed_over,
        _ => false,
    }
}

#[tactic(auto, unfolding(definition::specs::Refusals::changed))]
fn changed(change: u16, mode: Mode) -> Mode
    ensures { result ≡ refusals.changed change mode }
{
    match change {
        1 => Mode::Spr,
        2 => Mode::Epr,
        _ => mode,
    }
}

#[tactic(auto, unfolding(definition::specs::Refusals::allowed_target))]
fn allowed_target(handed_over: bool, number: u8, change: u16) -> Move
    ensures { next result ≡ refusals.allowed_target handed_over number change }
{
    if change_allowed(handed_over, change) {
        target(handed_over, number)
    } else {
        Move::Misfit
    }
}

// R6 is a misfit; the mode changes on the way to the target.
pub fn re_entry(handed_over: bool, mode: Mode, number: u8, change: u16) -> Decided
    ensures mode_value { result.mode ≡ refusals.changed change mode }
    ensures then_value { next result.then ≡ refusals.allowed_target handed_over number change }
{
    Decided {
        mode: changed(change, mode),
        then: allowed_target(handed_over, number, change),
    }
}
