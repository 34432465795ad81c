// What a line shows of a step: letters and numbers. By functions, and not by From: the variants hold values, so that no cast gives a letter, and a From
// would not say which of an answer's two bytes it is.
ghost use Rattle.std.specs.Prelude.{◌≡◌};
ghost use Rattle.definition.specs.Paper as paper;
ghost use Rattle.listing.specs.Line as specs;

use model::{Answer, Contract};

pub fn letter_of(answer: Answer) -> u8
    ensures { result ≡ paper.letter answer }
{
    match answer {
        Answer::Waiting => b'W',
        Answer::Stopped(_) => b'S',
        Answer::Finished(_) => b'F',
        Answer::HandedOver(_) => b'H',
        Answer::Refused(_) => b'R',
    }
}

pub fn number_of(answer: Answer) -> u8
    ensures { result ≡ paper.answer_number answer }
{
    match answer {
        Answer::Waiting => 0,
        Answer::Stopped(n) | Answer::Refused(n) => n,
        Answer::Finished(finish) => finish as u8,
        Answer::HandedOver(handover) => handover as u8,
    }
}

// "contract (D, N for `_Invalid`, I, T, E)"
pub fn contract_letter(contract: Contract) -> u8
    ensures { result ≡ specs.contract_letter contract }
{
    match contract {
        Contract::Safe5V => b'D',
        Contract::Implicit => b'I',
        Contract::TransitionToExplicit => b'T',
        Contract::Explicit(_) => b'E',
        Contract::Invalid => b'N',
    }
}
