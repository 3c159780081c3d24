// Numbers and words out of the fields of a line.
ghost use Rattle.std.specs.Prelude.{◌≡◌, map};
ghost use Rattle.route.specs.Fields as spec;
ghost use Rattle.route.specs.Codes as codes;

use crate::text::{field, part};
use decimal::number::read_number;
use decimal::whole::read_whole;
use link::train_params::{TrainType, type_number};
use lookup::lin_search_hint::Dir;

// The bytes of field k, from 0, of the line at `at`; none where the line has no such field.
pub fn bytes_at(text: &[u8], at: usize, k: usize) -> &[u8]
    ensures { result.now ≡ spec.field_bytes text.now at k }
{
    part(text, field(text, at, k))
}

// The number that field k is.
pub fn number_at(text: &[u8], at: usize, k: usize) -> Option<f64>
    ensures { result ≡ spec.number_at text.now at k }
{
    read_number(bytes_at(text, at, k))
}

// The whole number that field k is.
pub fn whole_at(text: &[u8], at: usize, k: usize) -> Option<u32>
    ensures { result ≡ spec.whole_at text.now at k }
{
    read_whole(bytes_at(text, at, k))
}

// Whether two words are byte for byte the same.
pub fn is_word(a: &[u8], b: &[u8]) -> bool
    ensures { result ≡ spec.same a.now b.now }
{
    a == b
}

// The number that a field is known to be; 0 otherwise.
pub fn float_at(text: &[u8], at: usize, k: usize) -> f64
    ensures { result ≡ spec.or_zero (spec.number_at text.now at k) }
{
    number_at(text, at, k).unwrap_or(0.0)
}

// The whole number that a field is known to be; 0 otherwise.
pub fn count_at(text: &[u8], at: usize, k: usize) -> u32
    ensures { result ≡ spec.whole_or_zero (spec.whole_at text.now at k) }
{
    whole_at(text, at, k).unwrap_or(0)
}

// What a word means by a table of words; none for a word that the table does not have.
pub fn word_in<T: Copy>(w: &[u8], table: &[(&[u8], T)]) -> Option<T>
    ensures { result ≡ codes.code_of (map (λ e. record { word = e.0.now; code = e.1 }) table.now) w.now }
{
    for entry in table {
        if is_word(w, entry.0) {
            return Some(entry.1);
        }
    }
    None
}

const TYPES: [(&[u8], TrainType); 7] = [
    (b"none", TrainType::None),
    (b"freight", TrainType::Freight),
    (b"passenger", TrainType::Passenger),
    (b"intermodal", TrainType::Intermodal),
    (b"high_speed_passenger", TrainType::HighSpeedPassenger),
    (b"tilt_train", TrainType::TiltTrain),
    (b"commuter", TrainType::Commuter),
];

// The train type of a word.
pub fn type_of(w: &[u8]) -> Option<TrainType>
    ensures { result ≡ codes.code_of codes.types w.now }
{
    word_in(w, &TYPES)
}

// The place of a set: 0 for all trains, else one more than the type's number.
pub fn place_of(w: &[u8]) -> Option<usize>
    ensures { result ≡ codes.code_of codes.places w.now }
{
    if is_word(w, b"all") {
        return Some(0);
    }
    let train_type = type_of(w)?;
    Some(type_number(train_type) + 1)
}

// 1 for a set whose limits end at their end, 0 for one with a tail. A number, as the link table that C lends has it; so are the next two.
pub fn head_code(w: &[u8]) -> Option<u32>
    ensures { result ≡ codes.code_of codes.tails w.now }
{
    word_in(w, &[(b"tail", 0), (b"head", 1)])
}

// The code of a condition's kind, 3 to 5.
pub fn figure_code(w: &[u8]) -> Option<u32>
    ensures { result ≡ codes.code_of codes.figures w.now }
{
    word_in(w, &[(b"mass", 3), (b"brake", 4), (b"axles", 5)])
}

const COMPARISONS: [(&[u8], u32); 5] = [(b"=", 1), (b">", 2), (b"<", 3), (b">=", 4), (b"<=", 5)];

// The code of a comparison, 1 to 5.
pub fn comparison_code(w: &[u8]) -> Option<u32>
    ensures { result ≡ codes.code_of codes.comparisons w.now }
{
    word_in(w, &COMPARISONS)
}

// A direction.
pub fn direction_of(w: &[u8]) -> Option<Dir>
    ensures { result ≡ codes.code_of codes.directions w.now }
{
    word_in(
        w,
        &[(b"unk", Dir::Unk), (b"fwd", Dir::Fwd), (b"bwd", Dir::Bwd)],
    )
}
