// A line: "entry number, answer, contract, hard count, caps count, actions".
// Contract and counts are handed on by themselves: in a struct of three they cost 5.9 instructions an event (235.8, not 229.9), and a lent record 33.
ghost use Rattle.std.specs.Prelude.{◌≡◌, false, [], ◌∷◌, ◌++◌, ◌+◌, ◌*◌, ◌≤◌, ◌<◌, length, get_or, IsTrue};
ghost use Rattle.std.specs.Int.{from_le_bytes, w64};
ghost use Rattle.definition.specs.Actions.{none};
ghost use Rattle.notation.specs.Rows.{◌⇒◌∣◌, ◌is◌};
ghost use Rattle.definition.specs.Paper as paper;
ghost use Rattle.numeral.specs.Decimal as decimals;
ghost use Rattle.numeral.specs.Numeral.{spelled};
ghost use Rattle.listing.specs.Text.{lay, Lays};
ghost use Rattle.listing.specs.Line as specs;

use crate::shown::{contract_letter, letter_of, number_of};
use crate::text::{bytes, digit, digits_of, number};
use model::{Action, Answer, Contract, Record};
use numeral::Numeral;

// " W D 0 0", as one number, which is stored at once: laid as an array of eight bytes it is 2 instructions an event more (236.9 against 234.9).
// A table of words: with `contract_letter` in one word it is 2 more, too (231.9 against 229.9).
fn waits_in(contract: Contract) -> u64
    ensures value { result ≡ from_le_bytes w64 (32 ∷ 87 ∷ 32 ∷ specs.contract_letter contract ∷ 32 ∷ 48 ∷ 32 ∷ 48 ∷ []) }
    ensures letter { specs.contract_letter contract < 256 }
{
    match contract {
        Contract::Safe5V => u64::from_le_bytes(*b" W D 0 0"),
        Contract::Implicit => u64::from_le_bytes(*b" W I 0 0"),
        Contract::TransitionToExplicit => u64::from_le_bytes(*b" W T 0 0"),
        Contract::Explicit(_) => u64::from_le_bytes(*b" W E 0 0"),
        Contract::Invalid => u64::from_le_bytes(*b" W N 0 0"),
    }
}

fn waiting_word(contract: Contract, hard: u8, caps: u8) -> u64
    requires { (hard < 10) × (caps < 10) }
    ensures value { result ≡ from_le_bytes w64 (32 ∷ 87 ∷ 32 ∷ specs.contract_letter contract ∷ 32 ∷ decimals.digit hard ∷ 32 ∷ decimals.digit caps ∷ []) }
    ensures letter { specs.contract_letter contract < 256 }
{
    waits_in(contract) + 0x100_0000_0000 * u64::from(hard) + 0x100_0000_0000_0000 * u64::from(caps)
}

fn action(out: &mut [u8], at: usize, n: u8, argument: u8) -> usize
    requires { at + 8 ≤ length out.old }
    ensures { Lays 8 (specs.action n argument) at result out.old out.new }
{
    if n == 0 {
        return at;
    }
    let at = bytes(out, at, [b' ']);
    let at = number(out, at, n);
    let at = bytes(out, at, [b'.']);
    number(out, at, argument)
}

// Of the actions that are issued most often, in one piece: " 8.3" or " 13.0" and the newline.
fn last(out: &mut [u8], at: usize, n: u8, argument: u8) -> usize
    requires { at + 9 ≤ length out.old }
    ensures { Lays 9 (specs.action n argument ++ 10 ∷ []) at result out.old out.new }
{
    if argument < 10 {
        if n < 10 {
            if 0 < n {
                return bytes(out, at, [b' ', digit(n), b'.', digit(argument), b'\n']);
            }
        } else {
            if n < 20 {
                return bytes(
                    out,
                    at,
                    [b' ', b'1', digit(n - 10), b'.', digit(argument), b'\n'],
                );
            }
        }
    }
    let at = action(out, at, n, argument);
    bytes(out, at, [b'\n'])
}

fn both(out: &mut [u8], at: usize, issued: [Action; 2]) -> usize
    requires { at + 17 ≤ length out.old }
    ensures { Lays 17 (specs.actions (get_or issued 0 none) (get_or issued 1 none) ++ 10 ∷ []) at result out.old out.new }
{
    let at = action(out, at, issued[0].number, issued[0].argument);
    let at = action(out, at, issued[1].number, issued[1].argument);
    bytes(out, at, [b'\n'])
}

fn actions(out: &mut [u8], at: usize, issued: [Action; 2]) -> usize
    requires { at + 17 ≤ length out.old }
    ensures { Lays 17 (specs.actions (get_or issued 0 none) (get_or issued 1 none) ++ 10 ∷ []) at result out.old out.new }
{
    if issued[1].number == 0 {
        last(out, at, issued[0].number, issued[0].argument)
    } else {
        both(out, at, issued)
    }
}

fn counts(out: &mut [u8], at: usize, letter: u8, hard: u8, caps: u8) -> usize
    requires { at + 10 ≤ length out.old }
    ensures { Lays 10 ((32 ∷ letter ∷ 32 ∷ decimals.decimal hard) ++ 32 ∷ decimals.decimal caps) at result out.old out.new }
{
    let at = bytes(out, at, [b' ', letter, b' ']);
    let at = number(out, at, hard);
    let at = bytes(out, at, [b' ']);
    number(out, at, caps)
}

fn waiting(out: &mut [u8], at: usize, contract: Contract, hard: u8, caps: u8) -> usize
    requires { at + 12 ≤ length out.old }
    ensures { Lays 12 (32 ∷ 87 ∷ specs.counts contract hard caps) at result out.old out.new }
{
    if hard < 10 && caps < 10 {
        return bytes(out, at, waiting_word(contract, hard, caps).to_le_bytes());
    }
    let at = bytes(out, at, [b' ', b'W']);
    counts(out, at, contract_letter(contract), hard, caps)
}

fn refused(out: &mut [u8], at: usize, n: u8) -> usize
    requires { at + 6 ≤ length out.old }
    ensures { Lays 6 (32 ∷ specs.refused n) at result out.old out.new }
{
    let at = bytes(out, at, [b' ', b'R']);
    let at = number(out, at, n);
    bytes(out, at, [b'\n'])
}

fn rested(
    out: &mut [u8],
    at: usize,
    answer: Answer,
    contract: Contract,
    hard: u8,
    caps: u8,
    issued: [Action; 2],
) -> usize
    requires { (paper.letter answer is 87 ≡ false) × (at + 33 ≤ length out.old) }
    ensures { Lays 33 (32 ∷ specs.shown answer contract hard caps (get_or issued 0 none) (get_or issued 1 none)) at result out.old out.new }
{
    let letter = letter_of(answer);
    let n = number_of(answer);
    if letter == b'R' {
        return refused(out, at, n);
    }
    let at = bytes(out, at, [b' ', letter, b'.']);
    let at = number(out, at, n);
    let at = counts(out, at, contract_letter(contract), hard, caps);
    both(out, at, issued)
}

fn told(
    out: &mut [u8],
    at: usize,
    answer: Answer,
    contract: Contract,
    hard: u8,
    caps: u8,
    issued: [Action; 2],
) -> usize
    requires { at + 33 ≤ length out.old }
    ensures { Lays 33 (32 ∷ specs.shown answer contract hard caps (get_or issued 0 none) (get_or issued 1 none)) at result out.old out.new }
{
    if letter_of(answer) == b'W' {
        let at = waiting(out, at, contract, hard, caps);
        actions(out, at, issued)
    } else {
        rested(out, at, answer, contract, hard, caps, issued)
    }
}

#[tactic(auto, unfolding(crate::specs::Line::room))]
fn has_room(out: &[u8], at: usize) -> bool
    ensures value { result ≡ specs.room out.now at }
    ensures fits { IsTrue result → at + 40 ≤ length out.now }
{
    at <= out.len() && 40 <= out.len() - at
}

// The line of an entry that was refused before there was a record, or that is no call.
pub fn refusal(out: &mut [u8], at: usize, entry: Numeral, n: u8) -> usize
    ensures value { result ≡ (specs.room out.old at ⇒ at + length (spelled entry.0 ++ 32 ∷ specs.refused n) ∣ at) }
    ensures out_after { out.new ≡ (
        specs.room out.old at ⇒ lay out.old at (spelled entry.0 ++ 32 ∷ specs.refused n) ∣
        out.old) }
{
    if !has_room(out, at) {
        return at;
    }
    let at = digits_of(out, at, entry);
    refused(out, at, n)
}

// By record, answer and actions, which its clauses name, and not by a step: nothing else of one is shown.
// The line of a call, where there is room for 40 bytes; no line is longer.
pub fn line(
    out: &mut [u8],
    at: usize,
    entry: Numeral,
    record: Record,
    answer: Answer,
    issued: [Action; 2],
) -> usize
    ensures value { result ≡ (specs.room out.old at ⇒ at + length (spelled entry.0 ++ 32 ∷ specs.told «record» answer issued) ∣ at) }
    ensures out_after { out.new ≡ (
        specs.room out.old at ⇒ lay out.old at (spelled entry.0 ++ 32 ∷ specs.told «record» answer issued) ∣
        out.old) }
{
    if !has_room(out, at) {
        return at;
    }
    let at = digits_of(out, at, entry);
    let hard = record.hard_reset_counter.value;
    let caps = record.caps_counter.value;
    told(out, at, answer, record.contract, hard, caps, issued)
}
