// A trace, begun: its header creates a record. Each event is then a call on it.
#![tactic(auto)]

ghost use Rattle.std.specs.Prelude.{◌≡◌};
ghost use Rattle.replay.specs.Replay as replay;

use model::Created;

// Entry 0. Refusals: R8, then R7.
#[tactic(auto, unfolding(crate::specs::Replay::start))]
pub fn start(file: &[u8]) -> Created
    ensures { result ≡ replay.start file.now }
{
    match trace::header_of(file) {
        Err(_) => refusals::not_created(8),
        Ok(settings) => policy_engine::create(settings),
    }
}
