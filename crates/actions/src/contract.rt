// What a contract says to Ready.
ghost use Rattle.std.specs.Prelude.{◌≡◌};
ghost use Rattle.definition.specs.Actions.{pps};

use model::Contract;
use request::PowerSource;

// Entry: if the current Explicit Contract is for an SPR PPS APDO, then run the SourcePPSCommTimer.
pub fn is_pps(contract: Contract) -> bool
    ensures { result ≡ pps contract }
{
    matches!(contract, Contract::Explicit(PowerSource::Pps(_)))
}
