// The first line of an entry: its answer, and why it was refused.
ghost use Rattle.std.specs.Prelude.{◌≡◌, length};
ghost use Rattle.definition.specs.Answers as answers;

use crate::page::{Page, lay};
use model::{Answer, Finish, Handover};
use std::fmt;

// The paper's number.
fn finished(finish: Finish) -> u8
    ensures { result ≡ answers.finish_number finish }
{
    finish as u8
}

// Under the paper's number, the Rust's name.
fn finish_name(n: u8) -> &'static str {
    match n {
        0 => "SwapToSink",
        1 => "PortPartnerUnresponsive",
        2 => "ReconnectionRequired",
        _ => "no safe request",
    }
}

// The paper's number.
fn handed_over(handover: Handover) -> u8
    ensures { result ≡ answers.handover_number handover }
{
    handover as u8
}

// Under the paper's number, the Rust's name.
fn handover_name(n: u8) -> &'static str {
    match n {
        3 => "DrpSwap(Power(Evaluate))",
        4 => "DrpSwap(Power(Send))",
        5 => "EprMode(Entry)",
        6 => "EprMode(ExitReceived)",
        7 => "EprMode(SendExit)",
        _ => "EprMode(DiscoverCable)",
    }
}

// The three errors that document 01 names.
fn error_name(e: u8) -> Option<&'static str> {
    match e {
        model::RX_HARD_RESET => Some("RxError::HardReset"),
        model::RECEIVE_TIMEOUT => Some("RxError::ReceiveTimeout"),
        model::UNEXPECTED_MESSAGE => Some("UnexpectedMessage"),
        _ => None,
    }
}

// Of R8 this is the header's. Nothing is refused under another number.
fn reason(n: u8) -> Option<&'static str> {
    match n {
        1 => Some("the record contradicts itself"),
        2 => Some("the record is finished"),
        3 => Some("a re-entry, and the record waits"),
        4 => Some("an outcome, and the record does not wait"),
        5 => Some("the outcome does not fit the awaited action"),
        6 => Some("the target or the mode change is not allowed"),
        7 => Some("a limit is 0, or role_swapped without dual_role"),
        8 => Some("malformed trace: bad header"),
        _ => None,
    }
}

#[derive(Clone, Copy)]
pub(crate) struct Answered(pub(crate) Answer);

impl fmt::Display for Answered {
    fn fmt<W: fmt::Write>(&self, f: &mut fmt::Formatter<W>) -> fmt::Result {
        match self.0 {
            Answer::Waiting => f.write_str("W, waiting"),
            Answer::Stopped(e) => match error_name(e) {
                Some(name) => write!(f, "S.{e}, stopped by {name}"),
                None => write!(f, "S.{e}, stopped by protocol error {e}"),
            },
            Answer::Finished(finish) => {
                let n = finished(finish);
                write!(f, "F.{n}, finished: {}", finish_name(n))
            }
            Answer::HandedOver(handover) => {
                let n = handed_over(handover);
                write!(f, "H.{n}, handed over: {}", handover_name(n))
            }
            Answer::Refused(n) => match reason(n) {
                Some(reason) => write!(f, "R{n}, {reason}"),
                None => Ok(()),
            },
        }
    }
}

// An entry that was refused before there was a record.
pub fn refusal(page: &mut Page<'_>, number: u64, n: u8)
    ensures { length page.new.out.now ≡ length page.old.out.now }
{
    let answer = Answered(Answer::Refused(n));
    lay(page, format_args!("entry {number}: {answer}\n"));
}

// An event that is no call: fewer bytes than an event has, or none that document 01 names.
pub fn malformed(page: &mut Page<'_>, number: u64, bytes: usize)
    ensures { length page.new.out.now ≡ length page.old.out.now }
{
    let what = if bytes < 12 {
        "partial event"
    } else {
        "bad event"
    };
    lay(
        page,
        format_args!("entry {number}: R8, malformed trace: {what}\n"),
    );
}
