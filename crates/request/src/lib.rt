// The sink's request: PowerSource of src/protocol_layer/message/data/request.rs of usbpd 3.0.0, its kinds and its retyping.
#![tactic(auto)]

ghost use Rattle.std.specs.Prelude.{◌≡◌};
ghost use Rattle.request.specs.Requests.{kind, first, second, same, typed, retyped};

// As in the Rust, each kind's raw word stays under that kind's name: one generic type would lose the names.
#[derive(Clone, Copy, PartialEq, Eq)]
pub struct FixedVariableSupply(pub u32);

#[derive(Clone, Copy, PartialEq, Eq)]
pub struct Battery(pub u32);

#[derive(Clone, Copy, PartialEq, Eq)]
pub struct Pps(pub u32);

#[derive(Clone, Copy, PartialEq, Eq)]
pub struct Avs(pub u32);

#[derive(Clone, Copy, PartialEq, Eq)]
pub struct RawDataObject(pub u32);

#[derive(Clone, Copy, PartialEq, Eq)]
pub struct EprRequestDataObject {
    pub rdo: u32,
    pub pdo: u32,
}

#[derive(Clone, Copy, PartialEq, Eq)]
pub enum PowerSource {
    FixedVariableSupply(FixedVariableSupply),
    Battery(Battery),
    Pps(Pps),
    Avs(Avs),
    Unknown(RawDataObject),
    EprRequest(EprRequestDataObject),
}

// What stands at an object position in `source_capabilities()`: source_capabilities::Kind. The codes are document 01's of outcome 6.
#[derive(Clone, Copy, PartialEq, Eq)]
pub enum Kind {
    FixedSupply = 1,
    VariableSupply,
    Battery,
    Pps,
    Avs,
}

// Document 01's number of a request's kind. No cast gives it: the variants have fields.
pub fn kind_of(request: PowerSource) -> u8
    ensures { result ≡ kind request }
{
    match request {
        PowerSource::FixedVariableSupply(_) => 0,
        PowerSource::Battery(_) => 1,
        PowerSource::Pps(_) => 2,
        PowerSource::Avs(_) => 3,
        PowerSource::Unknown(_) => 4,
        PowerSource::EprRequest(_) => 5,
    }
}

pub fn first_word(request: PowerSource) -> u32
    ensures { result ≡ first request }
{
    match request {
        PowerSource::FixedVariableSupply(word) => word.0,
        PowerSource::Battery(word) => word.0,
        PowerSource::Pps(word) => word.0,
        PowerSource::Avs(word) => word.0,
        PowerSource::Unknown(word) => word.0,
        PowerSource::EprRequest(words) => words.rdo,
    }
}

pub fn second_word(request: PowerSource) -> u32
    ensures { result ≡ second request }
{
    match request {
        PowerSource::EprRequest(words) => words.pdo,
        _ => 0,
    }
}

#[tactic(auto, using(crate::proofs::Same::derived_same))]
pub fn equal(a: PowerSource, b: PowerSource) -> bool
    ensures { result ≡ same a b }
{
    a == b
}

// The match on Kind in NegotiateCapability, PD 3.2 Sec. 8.3.3.2.4.
fn type_as(word: RawDataObject, found: Option<Kind>) -> PowerSource
    ensures { result ≡ typed word found }
{
    match found {
        None => PowerSource::Unknown(word),
        Some(Kind::FixedSupply | Kind::VariableSupply) => {
            PowerSource::FixedVariableSupply(FixedVariableSupply(word.0))
        }
        Some(Kind::Battery) => PowerSource::Battery(Battery(word.0)),
        Some(Kind::Pps) => PowerSource::Pps(Pps(word.0)),
        Some(Kind::Avs) => PowerSource::Avs(Avs(word.0)),
    }
}

// A request of a known kind stays as it is, whatever was found.
pub fn retype(request: PowerSource, found: Option<Kind>) -> PowerSource
    ensures { result ≡ retyped request found }
{
    match request {
        PowerSource::Unknown(word) => type_as(word, found),
        _ => request,
    }
}
