// Why a text is no number, and why it is no whole number: the first reason that holds.
ghost use Rattle.std.specs.Prelude.{◌≡◌, position};
ghost use Rattle.std.specs.List.{list_all};
ghost use Rattle.decimal.specs.Fault as spec;

use crate::digits::all_digits;
use crate::number::{behind_mark, read_number};
use crate::whole::read_whole;

// Why a text is no number.
#[derive(Clone, Copy, Debug, PartialEq, Eq)]
pub enum Fault {
    Missing, // no byte
    Bits, // 0x, but not 16 hex digits behind it
    Plus, // the sign +
    Comma, // a comma
    NoMark, // 16 hex digits without 0x
    Exponent, // an exponent
    Places, // a decimal with more than 18 digits behind the point
    TooLarge, // a decimal whose digits as one whole number are more than 2^53
    NotNumber, // anything else
}

// Why a text is no whole number.
#[derive(Clone, Copy, Debug, PartialEq, Eq)]
pub enum WholeFault {
    Missing, // no byte
    NotDigits, // a byte that is no digit
    Long, // more than ten digits
    TooLarge, // ten digits or less, and not below 2^32
}

// Whether a text is 16 hex digits that are not all decimal.
#[tactic(auto, unfolding(crate::specs::Fault::is_hex))]
fn is_hex(text: &[u8]) -> bool
    ensures { result ≡ spec.is_hex text.now }
{
    (text.len() == 16) & (all_digits(text, 16) & !all_digits(text, 10))
}

// e or E.
fn is_e(b: u8) -> bool
    ensures { result ≡ spec.is_e b }
{
    (b == b'e') | (b == b'E')
}

// A digit, a point, a sign, e or E.
fn is_known(b: u8) -> bool
    ensures { result ≡ spec.is_known b }
{
    b.is_ascii_digit() | ((b == b'.') | ((b == b'+') | ((b == b'-') | is_e(b))))
}

// The place of the first e or E.
fn first_e(text: &[u8]) -> Option<usize>
    ensures { result ≡ position spec.is_e text.now }
{
    text.iter().position(|b| is_e(*b))
}

// Whether every byte is a digit, a point, a sign, e or E.
fn all_known(text: &[u8]) -> bool
    ensures { result ≡ list_all spec.is_known text.now }
{
    text.iter().all(|b| is_known(*b))
}

// Whether an e or E, not in first place, is among digits, points and signs.
#[tactic(auto, unfolding(crate::specs::Fault::is_exponent))]
fn is_exponent(text: &[u8]) -> bool
    ensures { result ≡ spec.is_exponent text.now }
{
    first_e(text).is_some_and(|e| 0 < e) & all_known(text)
}

// What is behind the sign -.
#[tactic(auto, unfolding(crate::specs::Fault::behind_sign))]
fn behind_sign(text: &[u8]) -> &[u8]
    ensures { result.now ≡ spec.behind_sign text.now }
{
    match text {
        [b'-', digits @ ..] => digits,
        _ => text,
    }
}

// The place of the first point.
fn point(text: &[u8]) -> Option<usize>
    ensures { result ≡ position spec.is_point text.now }
{
    text.iter().position(|b| *b == b'.')
}

// What is before the first point.
fn before_point(text: &[u8]) -> &[u8]
    ensures { result.now ≡ spec.before_point text.now }
{
    match point(text) {
        Some(p) => &text[..p],
        None => text,
    }
}

// What is behind the first point.
fn behind_point(text: &[u8]) -> &[u8]
    ensures { result.now ≡ spec.behind_point text.now }
{
    match point(text) {
        Some(p) => &text[p + 1..],
        None => &[],
    }
}

// Whether a text is digits with at most one point among them, and some digit.
#[tactic(auto, unfolding(crate::specs::Fault::is_decimal))]
fn is_decimal(text: &[u8]) -> bool
    ensures { result ≡ spec.is_decimal text.now }
{
    let a = before_point(text);
    let b = behind_point(text);
    (all_digits(a, 10) & all_digits(b, 10)) & ((0 < a.len()) | (0 < b.len()))
}

// The reason that a text's form gives.
#[tactic(auto, unfolding(crate::specs::Fault::form_fault))]
fn form_fault(text: &[u8]) -> Fault
    ensures { result ≡ spec.form_fault text.now }
{
    let d = behind_sign(text);
    if !is_decimal(d) {
        return Fault::NotNumber;
    }
    if 18 < behind_point(d).len() {
        return Fault::Places;
    }
    Fault::TooLarge
}

// Why a text is no number, where it is none.
#[tactic(auto, unfolding(crate::specs::Fault::reason_of))]
fn reason_of(text: &[u8]) -> Fault
    ensures { result ≡ spec.reason_of text.now }
{
    if text.is_empty() {
        return Fault::Missing;
    }
    if behind_mark(text).is_some() {
        return Fault::Bits;
    }
    if text[0] == b'+' {
        return Fault::Plus;
    }
    if text.contains(&b',') {
        return Fault::Comma;
    }
    if is_hex(text) {
        return Fault::NoMark;
    }
    if is_exponent(text) {
        return Fault::Exponent;
    }
    form_fault(text)
}

// Why a text is no whole number, where it is none.
#[tactic(auto, unfolding(crate::specs::Fault::whole_reason_of))]
fn whole_reason_of(text: &[u8]) -> WholeFault
    ensures { result ≡ spec.whole_reason_of text.now }
{
    if text.is_empty() {
        return WholeFault::Missing;
    }
    if !all_digits(text, 10) {
        return WholeFault::NotDigits;
    }
    if 10 < text.len() {
        return WholeFault::Long;
    }
    WholeFault::TooLarge
}

// Why a text is no number; none where it is one.
#[tactic(auto, unfolding(crate::specs::Fault::fault_of))]
pub fn number_fault(text: &[u8]) -> Option<Fault>
    ensures { result ≡ spec.fault_of text.now }
{
    match read_number(text) {
        Some(_) => None,
        None => Some(reason_of(text)),
    }
}

// Why a text is no whole number; none where it is one.
// Apart from `number_fault`: one generic function of both would take the reader and the reason as closures, and be no plainer than a match.
#[tactic(auto, unfolding(crate::specs::Fault::whole_fault_of))]
pub fn whole_fault(text: &[u8]) -> Option<WholeFault>
    ensures { result ≡ spec.whole_fault_of text.now }
{
    match read_whole(text) {
        Some(_) => None,
        None => Some(whole_reason_of(text)),
    }
}
