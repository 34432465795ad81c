// The two counts, as numbers wide enough to see that one passes 255.
ghost use Rattle.std.specs.Prelude.{◌≡◌};
ghost use Rattle.log_reader.specs.Reading as reading;

use crate::entries::Newest;

pub fn is_reset(newest: Newest) -> bool
    ensures { result ≡ reading.is_reset newest }
{
    matches!(newest, Newest::Reset)
}

fn is_capabilities_done(newest: Newest) -> bool
    ensures { result ≡ reading.is_capabilities_done newest }
{
    matches!(newest, Newest::CapabilitiesDone)
}

// "the 13s since the last 4, Done, 5 in a row"
#[tactic(auto, unfolding(crate::specs::Reading::hard_after))]
pub fn hard_after(number: u8, newest: Newest, hard: u8) -> u16
    ensures { result ≡ reading.hard_after number newest hard }
{
    match number {
        model::HARD_RESET_SIGNALLING => u16::from(hard) + 1,
        model::AWAIT_REQUEST => if is_capabilities_done(newest) {
            0
        } else {
            u16::from(hard)
        },
        _ => u16::from(hard),
    }
}

#[tactic(auto, unfolding(crate::specs::Reading::caps_after_timer))]
fn caps_after_timer(argument: u8, newest: Newest, caps: u8) -> u16
    ensures { result ≡ reading.caps_after_timer argument newest caps }
{
    match argument {
        model::SOURCE_CAPABILITY => u16::from(caps) + 1,
        model::SWAP_SOURCE_START => if is_reset(newest) { 0 } else { u16::from(caps) },
        _ => u16::from(caps),
    }
}

// "the 2.2s since the last 1 followed by 3 or 2.1"
#[tactic(auto, unfolding(crate::specs::Reading::caps_after))]
pub fn caps_after(number: u8, argument: u8, newest: Newest, caps: u8) -> u16
    ensures { result ≡ reading.caps_after number argument newest caps }
{
    match number {
        model::TIMER => caps_after_timer(argument, newest, caps),
        model::WAIT_FOR_VBUS => if is_reset(newest) { 0 } else { u16::from(caps) },
        _ => u16::from(caps),
    }
}
