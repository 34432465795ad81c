// What an outcome decides, by the group of its await.
ghost use Rattle.std.specs.Prelude.{◌≡◌};
ghost use Rattle.notation.specs.Rows.{◌⇒◌∣◌, ◌is◌};
ghost use Rattle.definition.specs.Messages.{receive_timeout};
ghost use Rattle.definition.specs.Moves.{next};
ghost use Rattle.definition.specs.Next.{stop};
ghost use Rattle.definition.specs.Outcomes as outcomes;

use model::{Finish, Message, Move, Outcome};
use replies::{Reply, heard_of, reply_of};

// An await that cannot fail: a timer, VBUS, a call of the DPM that returns nothing.
pub fn when_done(outcome: Outcome, then: Move) -> Move
    ensures { next result ≡ outcomes.when_done (next then) outcome }
{
    match reply_of(outcome) {
        Reply::Done => then,
        _ => Move::Misfit,
    }
}

// An error of the protocol layer where a timeout alone leads on.
pub fn unless_timeout(e: u8, timed_out: Move) -> Move
    ensures { next result ≡ (e is receive_timeout ⇒ next timed_out ∣ stop e) }
{
    if e == model::RECEIVE_TIMEOUT {
        timed_out
    } else {
        Move::Stop(e)
    }
}

// `.await?` of the protocol layer.
pub fn when_sent(outcome: Outcome, then: Move) -> Move
    ensures { next result ≡ outcomes.when_sent (next then) outcome }
{
    match reply_of(outcome) {
        Reply::Done => then,
        Reply::Failed(e) => Move::Stop(e),
        _ => Move::Misfit,
    }
}

// `.await.map_err(|_| Error::..)?` of the DPM.
pub fn when_driven(outcome: Outcome, then: Move, failed: Finish) -> Move
    ensures { next result ≡ outcomes.when_driven (next then) failed outcome }
{
    match reply_of(outcome) {
        Reply::Done => then,
        Reply::DpmFailed => Move::Finish(failed),
        _ => Move::Misfit,
    }
}

// A question to the DPM.
pub fn when_asked(outcome: Outcome, yes: Move, no: Move) -> Move
    ensures { next result ≡ outcomes.when_asked (next yes) (next no) outcome }
{
    match outcome {
        Outcome::YesNo(answer) => if answer { yes } else { no },
        _ => Move::Misfit,
    }
}

fn only(message: Message, message_type: u8, then: Move) -> Move
    ensures { next result ≡ outcomes.only message_type (next then) message }
{
    match message {
        Message::Control(t) if t == message_type => then,
        _ => Move::Misfit,
    }
}

// `receive_message_type(..).await?` for one control message.
pub fn when_control(outcome: Outcome, message_type: u8, then: Move) -> Move
    ensures { next result ≡ outcomes.when_control message_type (next then) outcome }
{
    match heard_of(outcome) {
        Some(Ok(message)) => only(message, message_type, then),
        Some(Err(e)) => Move::Stop(e),
        None => Move::Misfit,
    }
}
