// A request by its kind and its words, as it stands behind a state, a contract or an action.
use request::PowerSource;
use std::fmt;

const EPR_REQUEST: u8 = 5;

// By the kind's number. Of no other number is there a request.
fn kind_name(kind: u8) -> &'static str {
    match kind {
        0 => "FixedVariableSupply",
        1 => "Battery",
        2 => "Pps",
        3 => "Avs",
        4 => "Unknown",
        _ => "EprRequest",
    }
}

// Kind and words are those that `request` says.
#[derive(Clone, Copy)]
pub(crate) struct Requested(pub(crate) PowerSource);

impl fmt::Display for Requested {
    fn fmt<W: fmt::Write>(&self, f: &mut fmt::Formatter<W>) -> fmt::Result {
        let kind = request::kind_of(self.0);
        let first = request::first_word(self.0);
        write!(f, ": {} 0x{first:08x}", kind_name(kind))?;
        if kind == EPR_REQUEST {
            let second = request::second_word(self.0);
            write!(f, " 0x{second:08x}")?;
        }
        Ok(())
    }
}
