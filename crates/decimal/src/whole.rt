// A whole number below 2^32 out of text.
ghost use Rattle.std.specs.Prelude.{◌≡◌};
ghost use Rattle.decimal.specs.Number as spec;

use crate::digits::read_digits;

// The whole number that a text is.
#[tactic(auto, unfolding(crate::specs::Number::read_whole), using(crate::proofs::Hex::digits_ten, crate::proofs::Hex::value_ten))]
pub fn read_whole(text: &[u8]) -> Option<u32>
    ensures { result ≡ spec.read_whole text.now }
{
    if text.is_empty() | (10 < text.len()) {
        return None;
    }
    u32::try_from(read_digits(text, 10)?).ok()
}
