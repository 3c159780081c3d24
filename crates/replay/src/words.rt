// The words of a text: hexadecimal, apart by bytes that are no digits, from # to the line's end a comment. Columns of words, and what
// they stand for: numbers, trains, positions and directions.
ghost use Rattle.std.specs.Prelude.{◌≤◌, length};

use link::train_params::{TrainParams, TrainType};
use lookup::lin_search_hint::Dir;
use si::{Force, Length, Mass, Ratio, Velocity};
use std::alloc::{AllocError, Global};
use train::train_state::TrainState;

// How many words of a text are read, and how many entries of a column.
const WORDS: usize = 100_000;

pub const ENTRIES: usize = 4096;

// The value of a digit.
fn digit(b: u8) -> Option<u64> {
    match b {
        b'0'..=b'9' => Some(u64::from(b - b'0')),
        b'a'..=b'f' => Some(u64::from(b - b'a' + 10)),
        _ => None,
    }
}

// The number of a word's last sixteen digits.
fn word(digits: &[u8]) -> u64 {
    digits
        .iter()
        .fold(0, |n: u64, b| (n << 4) | digit(*b).unwrap_or(0))
}

// What stands before a line's comment.
fn without_comment(line: &[u8]) -> &[u8] {
    line.split(|b: &u8| *b == b'#').next().unwrap_or(line)
}

// The words of a text, with zeros behind them. (The closure of `flat_map` would need a type that has no name.)
pub fn words(alloc: Global, text: &[u8]) -> Result<Vec<u64>, AllocError> {
    let mut all = vec![in alloc; 0; WORDS]?;
    let mut places = all.iter_mut();
    for line in text.split(|b| *b == b'\n') {
        for w in without_comment(line).split(|b| digit(*b).is_none()) {
            if !w.is_empty() {
                if let Some(place) = places.next() {
                    *place = word(w);
                }
            }
        }
    }
    Ok(all)
}

// The f64 of its bits; every NaN is the same.
fn float_of(bits: u64) -> f64 {
    if 0x7ff0_0000_0000_0000 < bits % 0x8000_0000_0000_0000 {
        return f64::NAN;
    }
    f64::from_bits(bits)
}

// A number of 32 bits; the largest where the word has more.
fn number_of(word: u64) -> u32 {
    u32::try_from(word).unwrap_or(u32::MAX)
}

// A column: its length, its entries, and what is behind them among the words.
#[derive(Clone, Copy)]
pub struct Column<'a>(pub &'a [u64]);

impl<'a> Column<'a> {
    fn length(self) -> usize {
        self.0.first().map_or(0, |n| *n as usize)
    }

    // How many of its entries are read.
    pub fn held(self) -> usize {
        self.length().min(ENTRIES)
    }

    // What is behind its length, up to the words' end.
    fn entries(self) -> &'a [u64]
        ensures { length result.now ≤ length self.entry.0.now }
    {
        match self.0 {
            [_, entries @ ..] => entries,
            [] => &[],
        }
    }

    // The words behind its entries.
    pub fn behind(self) -> &'a [u64]
        ensures { length result.now ≤ length self.entry.0.now }
    {
        let entries = self.entries();
        let n = self.length();
        if n <= entries.len() {
            &entries[n..]
        } else {
            &[]
        }
    }

    // Entry i; 0 where there is none.
    pub fn entry(self, i: usize) -> u64 {
        if self.length() <= i {
            return 0;
        }
        self.entries().get(i).copied().unwrap_or(0)
    }

    pub fn float_at(self, i: usize) -> f64 {
        float_of(self.entry(i))
    }

    fn number_at(self, i: usize) -> u32 {
        number_of(self.entry(i))
    }

    // Its entries, fewer where the words end before.
    fn given(self) -> &'a [u64] {
        let entries = self.entries();
        entries.get(..self.length()).unwrap_or(entries)
    }

    // Its first n entries, zeros where it has fewer, each as an f64, and as a number of 32 bits.
    pub fn floats(self, alloc: Global, n: usize) -> Result<Vec<f64>, AllocError> {
        let mut all = vec![in alloc; 0.0; n]?;
        for (x, word) in all.iter_mut().zip(self.given()) {
            *x = float_of(*word);
        }
        Ok(all)
    }

    pub fn numbers(self, alloc: Global, n: usize) -> Result<Vec<u32>, AllocError> {
        let mut all = vec![in alloc; 0; n]?;
        for (x, word) in all.iter_mut().zip(self.given()) {
            *x = number_of(*word);
        }
        Ok(all)
    }
}

fn type_of(code: u32) -> TrainType {
    match code {
        1 => TrainType::Freight,
        2 => TrainType::Passenger,
        3 => TrainType::Intermodal,
        4 => TrainType::HighSpeedPassenger,
        5 => TrainType::TiltTrain,
        6 => TrainType::Commuter,
        _ => TrainType::None,
    }
}

pub fn train(args: Column) -> TrainParams {
    TrainParams {
        length: Length(args.float_at(0)),
        speed_max: Velocity(args.float_at(1)),
        towed_mass_static: Mass(args.float_at(2)),
        mass_per_brake: Mass(args.float_at(3)),
        axle_count: args.number_at(7),
        train_type: type_of(args.number_at(8)),
        curve_coeff_0: Ratio(args.float_at(4)),
        curve_coeff_1: Ratio(args.float_at(5)),
        curve_coeff_2: Ratio(args.float_at(6)),
    }
}

// A position, not yet placed on a link.
pub fn state(args: Column) -> TrainState {
    TrainState {
        offset: Length(args.float_at(0)),
        offset_back: Length(args.float_at(1)),
        length: Length(args.float_at(2)),
        weight_static: Force(args.float_at(3)),
        link_idx_front: 0,
        link_idx_back: 0,
        offset_in_link: Length(0.0),
    }
}

// The direction of a code: 1 Fwd, 2 Bwd, any other Unk.
pub fn dir(code: u64) -> Dir {
    match code {
        1 => Dir::Fwd,
        2 => Dir::Bwd,
        _ => Dir::Unk,
    }
}
