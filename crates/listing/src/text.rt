// Bytes and decimal numbers, laid into a buffer from a place on. Each hands back the place after what it laid.
// Buffer and place are no struct with methods: tried and proved, it stands in memory, and `list` took 239.5 instructions an event, not 228.5.
ghost use Rattle.std.specs.Prelude.{◌≡◌, [], ◌∷◌, ◌+◌, ◌*◌, ◌≤◌, ◌<◌, length};
ghost use Rattle.numeral.specs.Decimal as decimals;
ghost use Rattle.numeral.specs.Decimal.{decimal};
ghost use Rattle.numeral.specs.Numeral.{spelled};
ghost use Rattle.listing.specs.Text.{Lays};

use numeral::Numeral;

pub(crate) fn digit(d: u8) -> u8
    requires { d < 10 }
    ensures { result ≡ decimals.digit d }
{
    b'0' + d
}

#[tactic(auto, using(crate::proofs::Laying::lay_mid))]
pub(crate) fn bytes<const N: usize>(out: &mut [u8], at: usize, text: [u8; N]) -> usize
    requires { at + N ≤ length out.old }
    ensures { Lays N text.entry at result out.old out.new }
{
    let end = at + N;
    out[at..end].copy_from_slice(&text);
    end
}

// In decimal.
#[tactic(auto, unfolding(numeral::specs::Decimal::decimal))]
pub(crate) fn number(out: &mut [u8], at: usize, n: u8) -> usize
    requires { at + 3 ≤ length out.old }
    ensures { Lays 3 (decimal n) at result out.old out.new }
{
    if n < 10 {
        bytes(out, at, [digit(n)])
    } else if n < 100 {
        bytes(out, at, [digit(n / 10), digit(n % 10)])
    } else {
        let rest = n % 100;
        bytes(
            out,
            at,
            [digit(n / 100), digit(rest / 10), digit(rest % 10)],
        )
    }
}

// The digits of an entry's number, with no zero before them.
pub(crate) fn digits_of(out: &mut [u8], at: usize, numeral: Numeral) -> usize
    requires { at + 4 ≤ length out.old }
    ensures { Lays 4 (spelled numeral.0) at result out.old out.new }
{
    match numeral.0.to_le_bytes() {
        [b'0', b'0', b'0', d] => bytes(out, at, [d]),
        [b'0', b'0', c, d] => bytes(out, at, [c, d]),
        [b'0', b, c, d] => bytes(out, at, [b, c, d]),
        digits => bytes(out, at, digits),
    }
}
