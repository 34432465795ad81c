// The search in the rows: which of them a message meets first, and where that leads.
ghost use Rattle.std.specs.Prelude.{◌≡◌};
ghost use Rattle.definition.specs.Messages.{dispatched};
ghost use Rattle.definition.specs.Moves.{next};
ghost use Rattle.dispatch.specs.Search as search;

use crate::rows;
use crate::rows::{Class, Condition, Next, Row};
use model::{
    DataRoleSwap, Exchange, FastPowerRoleSwap, GiveWait, Handover, HardResetWait, Message, Mode,
    Move, State, SwapState, VcsState, VcsSwapSource,
};
use request::PowerSource;
use std::ops::Range;

impl Condition {
    fn holds(self, mode: Mode, dual_role: bool, bad_payload: bool) -> bool
        ensures { result ≡ search.holds self mode dual_role bad_payload }
    {
        match self {
            Condition::Always => true,
            Condition::InSpr => matches!(mode, Mode::Spr),
            Condition::InEpr => matches!(mode, Mode::Epr),
            Condition::Dual => dual_role,
            Condition::NotDual => !dual_role,
            Condition::BadPayload => bad_payload,
        }
    }
}

impl Row {
    // The row's side stands first: the other way around the search is not unrolled (288 instructions in the place of 270, counted as at `find`).
    #[tactic(auto, unfolding(crate::specs::Search::answers))]
    fn answers(
        self,
        class: Class,
        message_type: Option<u8>,
        mode: Mode,
        dual_role: bool,
        bad_payload: bool,
    ) -> bool
        ensures { result ≡ search.answers class message_type mode dual_role bad_payload self }
    {
        self.class == Some(class)
            && self.message_type == message_type
            && self.condition.holds(mode, dual_role, bad_payload)
    }
}

// The rows of a class stand together; Request and EprRequest share theirs.
fn rows_of(class: Class) -> Range<u8>
    ensures start { result.start ≡ search.first_of class }
    ensures end { result.end ≡ search.end_of class }
{
    match class {
        Class::Request | Class::EprRequest => 1..7,
        Class::EprMode => 7..11,
        Class::Control => 11..22,
        Class::ExtendedControl => 22..rows::LAST,
    }
}

// Each caller names its class, so that the compiler unrolls the search into a choice. Tried, and slower: what is sought as a struct, `find` of the range,
// and `position` in a constant table of the rows. Counted with nothing proved, an event of traces/wall.txt, laid again and again, takes 270
// instructions so, and 281, 281 and 302.
#[tactic(auto, using(crate::proofs::Seeking::begun, crate::proofs::Seeking::went_on, crate::proofs::Seeking::stopped, crate::proofs::Seeking::ended))]
fn find(
    class: Class,
    message_type: Option<u8>,
    mode: Mode,
    dual_role: bool,
    bad_payload: bool,
) -> u8
    ensures { result ≡ search.found class message_type mode dual_role bad_payload }
{
    let part = rows_of(class);
    for n in part.start..part.end {
        if rows::rule(n).answers(class, message_type, mode, dual_role, bad_payload) {
            return n;
        }
    }
    rows::LAST
}

// The number of the row that a message meets: by its class, then control type 0 to 31 or extended type 0 to 255; everything else meets the last.
#[tactic(auto, unfolding(crate::specs::Search::found, crate::specs::Search::seek, crate::specs::Search::answers, crate::specs::Rows::rule))]
pub fn row_of(mode: Mode, dual_role: bool, message: Message) -> u8
    ensures { result ≡ search.row_of mode dual_role message }
{
    match message {
        Message::Request(payload) => {
            find(Class::Request, None, mode, dual_role, payload.is_none())
        }
        Message::EprRequest(payload) => {
            find(Class::EprRequest, None, mode, dual_role, payload.is_none())
        }
        Message::EprMode(Some(word)) => {
            // PD 3.2 Tab. 6.50: the action stands in bits 31 to 24.
            let action = (word / 0x100_0000) as u8;
            find(Class::EprMode, Some(action), mode, dual_role, false)
        }
        Message::Control(message_type) => {
            find(Class::Control, Some(message_type), mode, dual_role, false)
        }
        Message::ExtendedControl(Some(message_type)) => {
            find(
                Class::ExtendedControl,
                Some(message_type),
                mode,
                dual_role,
                false,
            )
        }
        _ => rows::LAST,
    }
}

// What a row of NegotiateCapability takes along.
fn request_of(message: Message) -> Option<PowerSource>
    ensures { result ≡ search.request_of message }
{
    match message {
        Message::Request(payload) | Message::EprRequest(payload) => payload,
        _ => None,
    }
}

fn leads(to: Next, message: Message) -> Move
    ensures { next result ≡ search.led to message }
{
    match to {
        Next::Stop => Move::Stop(model::RX_HARD_RESET),
        Next::NegotiateCapability => request_of(message).map_or(
            Move::To(State::SendNotSupported),
            Move::Negotiate,
        ),
        Next::EprEntry => Move::HandOver(Handover::EprEntry),
        Next::EprExitReceived => Move::HandOver(Handover::EprExitReceived),
        Next::PowerEvaluate => Move::HandOver(Handover::PowerEvaluate),
        Next::HardReset => Move::To(State::HardReset(HardResetWait::Signal)),
        Next::SoftReset => Move::To(State::SoftReset),
        Next::SendCapabilities => Move::To(State::SendCapabilities(Exchange::Transmit)),
        Next::GiveSourceCap => Move::To(State::GiveSourceCap(Mode::Spr)),
        Next::GiveEprSourceCap => Move::To(State::GiveSourceCap(Mode::Epr)),
        Next::EvaluateSwap => Move::To(State::VconnSwap(
            VcsSwapSource::Message,
            VcsState::EvaluateSwap,
        )),
        Next::DataEvaluate => Move::To(State::DrpSwap(SwapState::Data(DataRoleSwap::Evaluate))),
        Next::FastEvaluate => Move::To(State::DrpSwap(SwapState::FastPower(
            FastPowerRoleSwap::Evaluate,
        ))),
        Next::GiveSinkCap => Move::To(State::DrpGiveSinkCap(Mode::Spr, GiveWait::Read)),
        Next::GiveEprSinkCap => Move::To(State::DrpGiveSinkCap(Mode::Epr, GiveWait::Read)),
        Next::NotSupportedReceived => Move::To(State::NotSupportedReceived),
        Next::EprKeepAlive => Move::To(State::EprKeepAlive),
        Next::SendNotSupported => Move::To(State::SendNotSupported),
    }
}

#[tactic(auto, using(crate::proofs::Wall::searched))]
pub fn match_message_to_state(mode: Mode, dual_role: bool, message: Message) -> Move
    ensures { next result ≡ dispatched mode dual_role message }
{
    let row = rows::rule(row_of(mode, dual_role, message));
    leads(row.next, message)
}
