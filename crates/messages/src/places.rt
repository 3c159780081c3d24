// Lines and links of a file, by their numbers.
ghost use Rattle.std.specs.Prelude.{◌≡◌, ◌==◌};

use link::train_params::TrainType;
use route::kinds::{Kind, TableLine, kind_of};
use show::Sink;
use std::fmt;

// The beginning of what is said about a line of a file.
pub fn at_line(out: Sink, name: &[u8], line: usize) {
    write!(out, "plan: ");
    out.write_all(name);
    write!(out, ", line {line}");
}

// Whether a byte ends a line.
pub fn is_line_end(b: &u8) -> bool
    ensures { result ≡ (b.now == 10) }
{
    *b == b'\n'
}

// Line n of a text, from 1; none where it has fewer.
pub fn line_at(text: &[u8], n: usize) -> Option<&[u8]> {
    text.split(is_line_end).nth(n.saturating_sub(1))
}

// The number of the line that has the n-th link, from 1; none where there are fewer links.
pub fn line_of_link(text: &[u8], n: usize) -> Option<usize> {
    let mut links = 0usize;
    for (i, line) in text.split(is_line_end).enumerate() {
        if kind_of(line, 0) == Kind::Table(TableLine::Link) {
            links = links.saturating_add(1);
            if links == n {
                return Some(i.saturating_add(1));
            }
        }
    }
    None
}

// A link by its number, and its line where the file has it.
#[derive(Clone, Copy)]
pub struct Named {
    number: u32,
    line: Option<usize>,
}

impl Named {
    pub fn new(text: &[u8], number: u32) -> Named {
        Named {
            number,
            line: line_of_link(text, number as usize),
        }
    }
}

impl fmt::Display for Named {
    fn fmt<W: fmt::Write>(&self, f: &mut fmt::Formatter<W>) -> fmt::Result {
        let n = self.number;
        match self.line {
            Some(line) => write!(f, "link {n} (line {line})"),
            None => write!(f, "link {n}"),
        }
    }
}

// The word of a train type.
pub fn type_word(t: TrainType) -> &'static str {
    match t {
        TrainType::None => "none",
        TrainType::Freight => "freight",
        TrainType::Passenger => "passenger",
        TrainType::Intermodal => "intermodal",
        TrainType::HighSpeedPassenger => "high_speed_passenger",
        TrainType::TiltTrain => "tilt_train",
        TrainType::Commuter => "commuter",
    }
}

// The trains that a set place is for.
pub fn trains_of(place: u32) -> &'static str {
    match place {
        0 => "all trains",
        1 => type_word(TrainType::None),
        2 => type_word(TrainType::Freight),
        3 => type_word(TrainType::Passenger),
        4 => type_word(TrainType::Intermodal),
        5 => type_word(TrainType::HighSpeedPassenger),
        6 => type_word(TrainType::TiltTrain),
        _ => type_word(TrainType::Commuter),
    }
}
