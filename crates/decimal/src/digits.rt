// The digits of a number, decimal or hex, and the number that they write.
ghost use Rattle.std.specs.Prelude.{◌≡◌, ◌≤◌, true, length};
ghost use Rattle.decimal.specs.Digits as spec;

// The value of a hex digit, 0 to 15, or 16 for any other byte.
#[tactic(auto, unfolding(crate::specs::Digits::hex_value))]
pub fn hex_value(b: u8) -> u8
    ensures { result ≡ spec.hex_value b }
{
    match char::from(b).to_digit(16) {
        Some(d) => d as u8,
        None => 16,
    }
}

// The value of a digit to a base, at most 16; none for any other byte.
pub fn digit(b: u8, base: u64) -> Option<u64>
    ensures { result ≡ spec.digit base b }
{
    let d = u64::from(char::from(b).to_digit(16)?);
    if d < base { Some(d) } else { None }
}

// Whether every byte is a digit to a base, at most 16.
#[tactic(auto, unfolding(crate::specs::Digits::all_digits))]
pub fn all_digits(text: &[u8], base: u64) -> bool
    ensures { result ≡ spec.all_digits base text.now }
{
    text.iter().all(|b| u64::from(hex_value(*b)) < base)
}

// The number that at most 16 bytes write; none where a byte is no digit.
pub fn read_digits(text: &[u8], base: u64) -> Option<u64>
    requires text_len_bound { length text.now ≤ 16 }
    requires base_bound { base ≤ 16 }
    ensures { result ≡ spec.digits_number base text.now }
{
    let mut n = 0;
    for &b in text {
        n = base * n + digit(b, base)?;
    }
    Some(n)
}

// The number that at most 16 digits write.
pub fn digits_number(text: &[u8], base: u64) -> u64
    requires text_len_bound { length text.now ≤ 16 }
    requires base_bound { base ≤ 16 }
    requires text_value { spec.all_digits base text.now ≡ true }
    ensures { result ≡ spec.whole_from base 0 text.now }
{
    read_digits(text, base).unwrap_or(0)
}
