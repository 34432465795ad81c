// What the answer to a swap that we asked for leads to where it does not come.
ghost use Rattle.std.specs.Prelude.{◌≡◌};
ghost use Rattle.definition.specs.Moves.{next};
ghost use Rattle.definition.specs.Outcomes.{swap_failed};

use model::{Move, State};

// PD 3.2 Sec. 8.3.3.19.1.5 and 8.3.3.20.1: Ready once the SenderResponseTimer has timed out.
#[tactic(auto, unfolding(definition::specs::Outcomes::swap_failed))]
pub fn answer_failed(e: u8) -> Move
    ensures { next result ≡ swap_failed e }
{
    outcomes::unless_timeout(e, Move::To(State::Ready))
}
