// Whether every line of a route can be read: the first that cannot, and why.
ghost use Rattle.std.specs.Prelude.{◌≡◌};
ghost use Rattle.route.specs.Forms as spec;

use crate::fields::{
    bytes_at, comparison_code, count_at, direction_of, figure_code, head_code, number_at, place_of,
    type_of, whole_at,
};
use crate::kinds::{Call, Kind, TableLine, kind_of};
use crate::text::lines;
use crate::wanted::Wanted;

// How many records of each kind the link table has room for.
pub const LINKS: usize = 1024;

pub const PAIRS: usize = 16384;

pub const TRIPLES: usize = 8192;

pub const CONDITIONS: usize = 8192;

pub const POWERS: usize = 1024;

pub const LIST: usize = 1025;

// Why a line cannot be read.
#[derive(Clone, Copy, PartialEq, Eq, Debug)]
pub enum Fault {
    TableField(TableLine, usize), // a field that is missing, too much or not what it should be
    CallField(Call, usize), // the same of a call
    Word, // no known first field
    SecondTrain,
    LinkNumber { last: usize }, // not one more than the link's before
    NoLink, // a line of a link before the first link
    NoSet, // a line of a set before the link's first set
    SecondSet, // another set of the link for the same trains
    NoRoom,
    NoTrain, // at the file's end
}

// The first line that cannot be read, from 1, and why.
#[derive(Clone, Copy, PartialEq, Eq, Debug)]
pub struct LineFault {
    pub line: usize,
    pub fault: Fault,
}

// What the lines so far had: where the train's line is, how many records of each kind, which set places the last link has.
#[derive(Clone, Copy, Default)]
struct Seen {
    train_at: Option<usize>,
    links: usize,
    elevs: usize,
    headings: usize,
    powers: usize,
    conditions: usize,
    limits: usize,
    places: u32,
    calls: usize,
}

// A route whose lines can all be read: where its train's line is, and how many links and calls it has.
#[derive(Clone, Copy, PartialEq, Eq, Debug)]
pub struct Judged {
    pub train_at: usize,
    pub links: usize,
    pub calls: usize,
}

// Whether field k is what a form asks for.
fn field_fits(text: &[u8], at: usize, k: usize, asks: Wanted) -> bool
    ensures { result ≡ spec.field_fits text.now at k asks }
{
    let w = bytes_at(text, at, k);
    match asks {
        Wanted::Number => number_at(text, at, k).is_some(),
        Wanted::Whole => whole_at(text, at, k).is_some(),
        Wanted::TrainType => type_of(w).is_some(),
        Wanted::SetPlace => place_of(w).is_some(),
        Wanted::Tail => head_code(w).is_some(),
        Wanted::Figure => figure_code(w).is_some(),
        Wanted::Comparison => comparison_code(w).is_some(),
        Wanted::Direction => direction_of(w).is_some(),
    }
}

// The first field behind the line's word, from 1, that is not what its form asks for.
fn misfit(text: &[u8], at: usize, form: &[Wanted]) -> Option<usize>
    ensures { result ≡ spec.misfit_from text.now at 1 form.now }
{
    let mut k = 1;
    for asks in form {
        if !field_fits(text, at, k, *asks) {
            return Some(k);
        }
        k += 1;
    }
    if bytes_at(text, at, k).is_empty() {
        return None;
    }
    Some(k)
}

// The same for a list of whole numbers, as many as there is room for.
fn misfit_in_list(text: &[u8], at: usize) -> Option<usize>
    ensures { result ≡ spec.list_misfit_from text.now at 1 1025 }
{
    for i in 0..LIST {
        if bytes_at(text, at, i + 1).is_empty() {
            return None;
        }
        if whole_at(text, at, i + 1).is_none() {
            return Some(i + 1);
        }
    }
    if bytes_at(text, at, LIST + 1).is_empty() {
        return None;
    }
    Some(LIST + 1)
}

// The same for a call, by its form or as a list.
fn call_misfit(text: &[u8], at: usize, call: Call) -> Option<usize>
    ensures { result ≡ spec.call_misfit text.now at call }
{
    if call.has_list() {
        return misfit_in_list(text, at);
    }
    misfit(text, at, call.form())
}

// One more of a kind of which there are n so far, with room for `room`.
fn up(n: usize, room: usize) -> Result<usize, Fault> {
    if n < room {
        return Ok(n + 1);
    }
    Err(Fault::NoRoom)
}

// What speaks against a line of a link.
fn in_link(s: Seen) -> Result<(), Fault> {
    if s.links == 0 {
        return Err(Fault::NoLink);
    }
    Ok(())
}

// What speaks against a line of a set.
fn in_set(s: Seen) -> Result<(), Fault> {
    in_link(s)?;
    if s.places == 0 {
        return Err(Fault::NoSet);
    }
    Ok(())
}

// The bit of a set place.
fn place_bit(place: usize) -> u32 {
    match place {
        0 => 1,
        1 => 2,
        2 => 4,
        3 => 8,
        4 => 16,
        5 => 32,
        6 => 64,
        _ => 128,
    }
}

fn link_line(text: &[u8], at: usize, s: Seen) -> Result<Seen, Fault> {
    let mut r = s;
    r.links = up(s.links, LINKS)?;
    if count_at(text, at, 1) as usize != r.links {
        return Err(Fault::LinkNumber { last: s.links });
    }
    r.places = 0;
    Ok(r)
}

fn set_line(text: &[u8], at: usize, s: Seen) -> Result<Seen, Fault> {
    in_link(s)?;
    let bit = place_bit(place_of(bytes_at(text, at, 1)).unwrap_or(8));
    if s.places & bit != 0 {
        return Err(Fault::SecondSet);
    }
    let mut r = s;
    r.places = s.places | bit;
    Ok(r)
}

fn train_line(at: usize, s: Seen) -> Result<Seen, Fault> {
    if s.train_at.is_some() {
        return Err(Fault::SecondTrain);
    }
    let mut r = s;
    r.train_at = Some(at);
    Ok(r)
}

// A line of the train or of the link table, whose fields are as they should be.
fn record_line(text: &[u8], at: usize, line: TableLine, s: Seen) -> Result<Seen, Fault> {
    let mut r = s;
    match line {
        TableLine::Train => return train_line(at, s),
        TableLine::Link => return link_line(text, at, s),
        TableLine::Set => return set_line(text, at, s),
        TableLine::Elev => {
            in_link(s)?;
            r.elevs = up(s.elevs, PAIRS)?;
        }
        TableLine::Heading => {
            in_link(s)?;
            r.headings = up(s.headings, PAIRS)?;
        }
        TableLine::Power => {
            in_link(s)?;
            r.powers = up(s.powers, POWERS)?;
        }
        TableLine::When => {
            in_set(s)?;
            r.conditions = up(s.conditions, CONDITIONS)?;
        }
        TableLine::Limit => {
            in_set(s)?;
            r.limits = up(s.limits, TRIPLES)?;
        }
    }
    Ok(r)
}

// A line of the train or of the link table.
fn table_line(text: &[u8], at: usize, line: TableLine, s: Seen) -> Result<Seen, Fault> {
    if let Some(field) = misfit(text, at, line.form()) {
        return Err(Fault::TableField(line, field));
    }
    record_line(text, at, line, s)
}

fn call_line(text: &[u8], at: usize, call: Call, s: Seen) -> Result<Seen, Fault> {
    if let Some(field) = call_misfit(text, at, call) {
        return Err(Fault::CallField(call, field));
    }
    let mut r = s;
    r.calls = s.calls.saturating_add(1);
    Ok(r)
}

// One line more.
fn line_seen(text: &[u8], at: usize, s: Seen) -> Result<Seen, Fault> {
    match kind_of(text, at) {
        Kind::Blank => Ok(s),
        Kind::Table(line) => table_line(text, at, line, s),
        Kind::Call(call) => call_line(text, at, call, s),
        Kind::Unknown => Err(Fault::Word),
    }
}

// All lines, up to the first that cannot be read; a route without a train is refused at its end.
pub fn judge(text: &[u8]) -> Result<Judged, LineFault> {
    let mut seen = Seen::default();
    let mut line: usize = 0;
    for at in lines(text) {
        line = line.saturating_add(1);
        seen = line_seen(text, at, seen).map_err(|fault| LineFault { line, fault })?;
    }
    let Some(train_at) = seen.train_at else {
        return Err(LineFault {
            line,
            fault: Fault::NoTrain,
        });
    };
    Ok(Judged {
        train_at,
        links: seen.links,
        calls: seen.calls,
    })
}
