// An f64 out of text: 0x and 16 hex digits are its bits, anything else is a decimal.
ghost use Rattle.std.specs.Prelude.{◌≡◌, from_bits, option_copied};
ghost use Rattle.std.specs.Float.{binary64};
ghost use Rattle.decimal.specs.Number as spec;

use crate::decimal::read_decimal;
use crate::digits::read_digits;

// The f64 that bits are. `from_bits` is not defined at the bits of a NaN.
fn of_bits(bits: u64) -> f64
    ensures { result ≡ from_bits binary64 bits }
{
    if 0x7ff0_0000_0000_0000 < bits % 0x8000_0000_0000_0000 {
        return 0.0 / 0.0;
    }
    f64::from_bits(bits)
}

// The f64 whose bits 16 hex digits write; none for anything else.
#[tactic(auto, unfolding(crate::specs::Number::of_hex), using(crate::proofs::Hex::digits_sixteen, crate::proofs::Hex::value_sixteen))]
fn of_hex(digits: &[u8]) -> Option<f64>
    ensures { result ≡ spec.of_hex digits.now }
{
    if digits.len() == 16 {
        return read_digits(digits, 16).map(of_bits);
    }
    None
}

// What is behind 0x; none where a text does not begin so.
pub fn behind_mark(text: &[u8]) -> Option<&[u8]>
    ensures { option_copied result ≡ spec.behind_mark text.now }
{
    match text {
        [b'0', b'x', digits @ ..] => Some(digits),
        _ => None,
    }
}

// The number that a text is.
#[tactic(auto, unfolding(crate::specs::Number::read_number))]
pub fn read_number(text: &[u8]) -> Option<f64>
    ensures { result ≡ spec.read_number text.now }
{
    behind_mark(text)
        .and_then(of_hex)
        .or_else(|| read_decimal(text))
}
