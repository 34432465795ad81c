// From the numbers of document 01's events to what the host reports; `as u8` leads back.
ghost use Rattle.std.specs.Prelude.{◌≡◌};
ghost use Rattle.model.specs.Codes as codes;

use crate::outcome::{CapabilityResponse, Event, Timeout};

// A number that document 01 does not name.
#[derive(Clone, Copy, PartialEq, Eq)]
pub struct UnknownCode;

impl TryFrom<u8> for CapabilityResponse {
    type Error = UnknownCode;

    ghost try_from_gives = { λ code r. r ≡ codes.evaluation code };

    #[tactic(auto, unfolding(crate::specs::Codes::evaluation))]
    fn try_from(code: u8) -> Result<Self, UnknownCode> {
        match code {
            0 => Ok(CapabilityResponse::Accept),
            1 => Ok(CapabilityResponse::Reject),
            2 => Ok(CapabilityResponse::Wait),
            _ => Err(UnknownCode),
        }
    }
}

impl TryFrom<u8> for Event {
    type Error = UnknownCode;

    ghost try_from_gives = { λ code r. r ≡ codes.event code };

    #[tactic(auto, unfolding(crate::specs::Codes::event))]
    fn try_from(code: u8) -> Result<Self, UnknownCode> {
        match code {
            0 => Ok(Event::None),
            1 => Ok(Event::UpdatedSourceCapabilities),
            2 => Ok(Event::RequestSinkCapabilities),
            3 => Ok(Event::RequestSourceCapabilities),
            4 => Ok(Event::RequestEprSourceCapabilities),
            5 => Ok(Event::ExitEprMode),
            6 => Ok(Event::RequestVconnSwap),
            7 => Ok(Event::RequestDataRoleSwap),
            8 => Ok(Event::RequestPowerRoleSwap),
            _ => Err(UnknownCode),
        }
    }
}

impl TryFrom<u8> for Timeout {
    type Error = UnknownCode;

    ghost try_from_gives = { λ code r. r ≡ codes.timeout code };

    #[tactic(auto, unfolding(crate::specs::Codes::timeout))]
    fn try_from(code: u8) -> Result<Self, UnknownCode> {
        match code {
            1 => Ok(Timeout::Pps),
            2 => Ok(Timeout::KeepAlive),
            3 => Ok(Timeout::FiveSeconds),
            _ => Err(UnknownCode),
        }
    }
}
