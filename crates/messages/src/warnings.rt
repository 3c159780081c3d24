// Lines that can be read, and that a surveyor would want a word about: one line to standard error for each sort.
ghost use Rattle.std.specs.Prelude.{◌<◌};

use crate::places::{at_line, is_line_end};
use route::fields::{bytes_at, count_at, figure_code, float_at, place_of};
use route::kinds::{Kind, TableLine, kind_of};
use show::Sink;

// What a warning is about.
#[derive(Clone, Copy, PartialEq, Eq, Debug)]
enum Sort {
    PastEnd,
    BehindEnd,
    BothSets,
    NoNeighbour,
    BelowZero,
    AxlesCut,
}

// All sorts, in the order in which they are told.
const SORTS: [Sort; 6] = [
    Sort::PastEnd,
    Sort::BehindEnd,
    Sort::BothSets,
    Sort::NoNeighbour,
    Sort::BelowZero,
    Sort::AxlesCut,
];

// The lines with a warning of one sort: the first, and how many there are.
#[derive(Clone, Copy)]
struct Lines {
    first: usize,
    count: usize,
}

// The code of a condition on axles, a number as the link table that C lends has it.
const AXLES: u32 = 5;

// The lines of each sort that there are.
type Noted = [Option<Lines>; 6];

// The place of a sort among all.
fn place(sort: Sort) -> usize
    ensures { result < 6 }
{
    match sort {
        Sort::PastEnd => 0,
        Sort::BehindEnd => 1,
        Sort::BothSets => 2,
        Sort::NoNeighbour => 3,
        Sort::BelowZero => 4,
        Sort::AxlesCut => 5,
    }
}

// The line that is looked at, the length of its link, and which sets the link has so far.
#[derive(Clone, Copy)]
struct Near {
    line: usize,
    length: f64,
    for_all: bool,
    for_type: bool,
}

// One line more of a sort.
fn note(noted: &mut Noted, sort: Sort, line: usize) {
    let i = place(sort);
    noted[i] = Some(match noted[i] {
        Some(lines) => Lines {
            first: lines.first,
            count: lines.count.saturating_add(1),
        },
        None => Lines {
            first: line,
            count: 1,
        },
    });
}

// Whether a value for axles is cut: it is not a whole number from 0 to 4294967295.
fn is_cut(v: f64) -> bool {
    if v > -1.0 {
        if v < 18446744073709551616.0 {
            let whole = std::num::nearest_u64_to_f64(std::num::truncating_f64_to_u64(v));
            return (whole != v) | (4294967295.0 < v);
        }
    }
    true
}

// Whether field k of a line is a link that the file's links do not have.
fn is_absent(line: &[u8], k: usize, links: usize) -> bool {
    links < count_at(line, 0, k) as usize
}

// Whether a link's neighbour is.
fn lacks_neighbour(line: &[u8], links: usize) -> bool {
    is_absent(line, 3, links)
        || is_absent(line, 4, links)
        || is_absent(line, 5, links)
        || is_absent(line, 6, links)
}

fn limit_noted(line: &[u8], near: Near, noted: &mut Noted) {
    if near.length <= float_at(line, 0, 1) {
        note(&mut *noted, Sort::BehindEnd, near.line);
    } else if near.length < float_at(line, 0, 2) {
        note(&mut *noted, Sort::PastEnd, near.line);
    }
    if float_at(line, 0, 3) < 0.0 {
        note(&mut *noted, Sort::BelowZero, near.line);
    }
}

// A set, which stands beside one of the other sort or not.
fn set_noted(line: &[u8], mut near: Near, noted: &mut Noted) -> Near {
    let had = near.for_all & near.for_type;
    if place_of(bytes_at(line, 0, 1)) == Some(0) {
        near.for_all = true;
    } else {
        near.for_type = true;
    }
    if !had & (near.for_all & near.for_type) {
        note(&mut *noted, Sort::BothSets, near.line);
    }
    near
}

// One line more.
fn line_noted(line: &[u8], links: usize, mut near: Near, noted: &mut Noted) -> Near {
    near.line = near.line.saturating_add(1);
    match kind_of(line, 0) {
        Kind::Table(TableLine::Link) => {
            if lacks_neighbour(line, links) {
                note(&mut *noted, Sort::NoNeighbour, near.line);
            }
            near.length = float_at(line, 0, 2);
            near.for_all = false;
            near.for_type = false;
        }
        Kind::Table(TableLine::Limit) => limit_noted(line, near, &mut *noted),
        Kind::Table(TableLine::Set) => return set_noted(line, near, &mut *noted),
        Kind::Table(TableLine::When) => {
            let of_axles = figure_code(bytes_at(line, 0, 1)) == Some(AXLES);
            if of_axles & is_cut(float_at(line, 0, 3)) {
                note(&mut *noted, Sort::AxlesCut, near.line);
            }
        }
        _ => {}
    }
    near
}

fn words(sort: Sort) -> &'static str {
    match sort {
        Sort::PastEnd => "a limit reaches past the end of its link",
        Sort::BehindEnd => "a limit lies behind the end of its link",
        Sort::BothSets => {
            "a link has a set for all trains beside one for a type: the one for all serves every train"
        }
        Sort::NoNeighbour => "a neighbour is a link that the file does not have",
        Sort::BelowZero => "a limit's speed is below 0",
        Sort::AxlesCut => "a value for axles is cut to a whole number from 0 to 4294967295",
    }
}

// The beginning of a warning about a line.
pub fn warning(err: Sink, name: &[u8], line: usize) {
    at_line(err, name, line);
    write!(err, ": warning: ");
}

fn told(err: Sink, name: &[u8], sort: Sort, lines: Lines) {
    warning(err, name, lines.first);
    write!(err, "{}", words(sort));
    if 1 < lines.count {
        write!(err, "; lines with this: {}", lines.count);
    }
    write!(err, "\n");
}

// All lines of a text.
fn lines_noted(text: &[u8], links: usize, noted: &mut Noted) {
    let mut near = Near {
        line: 0,
        length: 0.0,
        for_all: false,
        for_type: false,
    };
    for line in text.split(is_line_end) {
        near = line_noted(line, links, near, &mut *noted);
    }
}

// What the lines of a file that has so many links give rise to: all sorts in turn.
pub fn warn(err: Sink, name: &[u8], text: &[u8], links: usize) {
    let mut noted = [None; 6];
    lines_noted(text, links, &mut noted);
    for sort in SORTS {
        if let Some(lines) = noted[place(sort)] {
            told(err, name, sort, lines);
        }
    }
}
