// A field that cannot be read: quoted, with its column and the reason.
use decimal::fault::{Fault, WholeFault, number_fault, whole_fault};
use route::fields::bytes_at;
use route::judge::LIST;
use route::text::field;
use route::wanted::Wanted;
use show::Sink;

// A byte as it may be shown: no control codes.
fn shown(b: u8) -> u8 {
    if b < b' ' || b == 127 { b'?' } else { b }
}

// At most 40 bytes of a text between quotes.
fn quoted(out: Sink, text: &[u8]) {
    write!(out, "\"");
    for b in text.iter().take(40) {
        out.write_all(&[shown(*b)]);
    }
    write!(out, "{}\"", if 40 < text.len() { ".." } else { "" });
}

// The column of field k of a line, and the field.
pub fn quoted_at(out: Sink, line: &[u8], k: usize) {
    let before = field(line, 0, k).from;
    write!(out, ", column {}: ", before.saturating_add(1));
    quoted(out, bytes_at(line, 0, k));
}

// Why a field is no number.
fn number_reason(w: &[u8]) -> &'static str {
    match number_fault(w) {
        Some(Fault::Bits) => " is not 0x and 16 hex digits",
        Some(Fault::Plus) => ": a number has no plus sign",
        Some(Fault::Comma) => ": a number has a point, not a comma",
        Some(Fault::Exponent) => ": a number has no exponent",
        Some(Fault::NoMark) => ": the bits of a number need 0x before the 16 hex digits",
        Some(Fault::Places) => " has more than 18 digits behind the point",
        Some(Fault::TooLarge) => {
            ": a number's digits as one whole number are at most 2^53, 9007199254740992"
        }
        _ => " is not a number",
    }
}

// Why a field is no whole number.
fn whole_reason(w: &[u8]) -> &'static str {
    match whole_fault(w) {
        Some(WholeFault::Long) => " has more than ten digits",
        Some(WholeFault::TooLarge) => " is not below 2^32, 4294967296",
        _ => " is not a whole number, digits alone",
    }
}

// Why field k, whose bytes are w, is not as `asks` says.
fn reason(w: &[u8], asks: Option<Wanted>, k: usize) -> &'static str {
    match asks {
        Some(Wanted::Number) => number_reason(w),
        Some(Wanted::Whole) if k <= LIST => whole_reason(w),
        Some(Wanted::TrainType) => " is no train type",
        Some(Wanted::SetPlace) => " is neither all nor a train type",
        Some(Wanted::Tail) => " is neither tail nor head",
        Some(Wanted::Figure) => " is neither mass nor brake nor axles",
        Some(Wanted::Comparison) => " is no comparison",
        Some(Wanted::Direction) => " is neither unk nor fwd nor bwd",
        Some(Wanted::Whole) | None => " is one field too many",
    }
}

// Why field k of a line cannot be read, which is to be as `asks` says, or not to be at all.
pub fn unreadable(out: Sink, line: &[u8], asks: Option<Wanted>, k: usize) {
    let w = bytes_at(line, 0, k);
    if w.is_empty() {
        write!(out, ": field {k} is missing");
        return;
    }
    quoted_at(out, line, k);
    write!(out, "{}", reason(w, asks, k));
}
