// NegotiateCapability and TransitionSupply of `update_state`: what each of their awaits leads to.
// src/source/policy_engine/mod.rs of usbpd 3.0.0, PD 3.2 Sec. 8.3.3.2.4 and 8.3.3.2.5.
#![tactic(auto)]

ghost use Rattle.std.specs.Prelude.{◌≡◌};
ghost use Rattle.definition.specs.Moves.{onward};
ghost use Rattle.definition.specs.Outcomes as outcomes;
ghost use Rattle.definition.specs.SourcePort.{negotiation_awaits};
ghost use Rattle.request.specs.declared.PowerSource.{PowerSource};
ghost use Rattle.model.specs.declared.place.Negotiation.{Negotiation};

use model::{CapabilityResponse, Denial, Finish, Negotiation, Onward, Outcome};
use replies::Reply;
use request::PowerSource;

fn looked_up(request: PowerSource, outcome: Outcome) -> Onward
    ensures { onward request result ≡ (negotiation_awaits Negotiation.Lookup request).then outcome }
{
    match outcome {
        Outcome::Lookup(found) => Onward::Evaluate(request::retype(request, found)),
        _ => Onward::Misfit,
    }
}

fn evaluation(request: PowerSource, outcome: Outcome) -> Onward
    ensures { onward request result ≡ (negotiation_awaits Negotiation.Evaluate request).then outcome }
{
    match outcome {
        Outcome::Evaluation(CapabilityResponse::Accept) => Onward::Accept,
        Outcome::Evaluation(CapabilityResponse::Reject) => Onward::Deny(Denial::Reject),
        Outcome::Evaluation(CapabilityResponse::Wait) => Onward::Deny(Denial::Wait),
        _ => Onward::Misfit,
    }
}

// `.await?` of the protocol layer. `outcomes::when_sent` over a type parameter in place of `Move` would take a trait of three functions (stop, finish,
// misfit) with two impls for what are two matches of three arms here.
fn when_sent(outcome: Outcome, then: Onward) -> Onward
    ensures { (q : PowerSource) → onward q result ≡ outcomes.when_sent (onward q then) outcome }
{
    match replies::reply_of(outcome) {
        Reply::Done => then,
        Reply::Failed(e) => Onward::Stop(e),
        _ => Onward::Misfit,
    }
}

fn supplied(request: PowerSource, outcome: Outcome) -> Onward
    ensures { onward request result ≡ (negotiation_awaits Negotiation.Supply request).then outcome }
{
    match replies::reply_of(outcome) {
        Reply::Done => Onward::PsRdy,
        Reply::DpmFailed => Onward::Finish(Finish::PortPartnerUnresponsive),
        _ => Onward::Misfit,
    }
}

pub fn negotiate(wait: Negotiation, request: PowerSource, outcome: Outcome) -> Onward
    ensures { onward request result ≡ (negotiation_awaits wait request).then outcome }
{
    match wait {
        Negotiation::Lookup => looked_up(request, outcome),
        Negotiation::Evaluate => evaluation(request, outcome),
        // Accept is sent before the supply moves.
        Negotiation::Accept => when_sent(outcome, Onward::Supply),
        Negotiation::Supply => supplied(request, outcome),
        Negotiation::PsRdy => when_sent(outcome, Onward::Ready),
    }
}
