// Positions, posted speeds and lists of trims on a path: its record is the column `counts`, its seven columns are named as the calls name them.
use crate::answers::{Entries, Reply, Told};
use crate::columns::{Columns, Number};
use crate::fields::{Fault, length, numbers, to_number};
use answer::Refusal;
use path::columns::{PathColumns, PathColumnsMut};
use path::path_tpc::PathTpc;
use path_clear::clear::ClearAnswer;
use path_clear::clear_each::clear_each;
use path_posted::posted_speed::posted_speed;
use std::alloc::{AllocError, Global};
use std::fmt;
use train::set_link_and_offset::with_link_and_offset;

// A path: its record and its seven columns.
#[derive(Drop)]
pub struct Path {
    record: PathTpc,
    offsets: Vec<f64>,
    numbers: Vec<u32>,
    grades: Vec<f64>,
    curves: Vec<f64>,
    speeds: Vec<f64>,
    powers: Vec<f64>,
    districts: Vec<u32>,
}

// The column of a name; none where the text sets none.
fn column_of<T: Number>(
    alloc: Global,
    columns: &Columns,
    name: &[u8],
) -> Result<Vec<T>, AllocError> {
    Vec::from_slice(alloc, columns.column::<T>(name).unwrap_or(&[]))
}

// The path's record.
fn record(columns: &Columns) -> PathTpc {
    let counts = columns.line::<u32>(b"counts").unwrap_or(&[]);
    PathTpc {
        link_count: column::get(counts, 0) as usize,
        grade_count: column::get(counts, 1) as usize,
        curve_count: column::get(counts, 2) as usize,
        speed_count: column::get(counts, 3) as usize,
        power_count: column::get(counts, 4) as usize,
        is_finished: false,
    }
}

impl Path {
    // The path that the columns say.
    fn read(alloc: Global, columns: &Columns) -> Result<Path, AllocError> {
        Ok(Path {
            record: record(columns),
            offsets: column_of(alloc, columns, b"offsets")?,
            numbers: column_of(alloc, columns, b"numbers")?,
            grades: column_of(alloc, columns, b"grades")?,
            curves: column_of(alloc, columns, b"curves")?,
            speeds: column_of(alloc, columns, b"speeds")?,
            powers: column_of(alloc, columns, b"powers")?,
            districts: column_of(alloc, columns, b"districts")?,
        })
    }

    // Its columns, to read.
    fn reading(&self) -> PathColumns<'_, '_, '_> {
        PathColumns {
            offsets: &self.offsets,
            numbers: &self.numbers,
            grades: &self.grades,
            curves: &self.curves,
            speeds: &self.speeds,
            powers: &self.powers,
            districts: &self.districts,
        }
    }

    // Its columns, for a call that may change them.
    fn lent(&mut self) -> PathColumnsMut<'_> {
        PathColumnsMut {
            offsets: &mut self.offsets,
            numbers: &mut self.numbers,
            grades: &mut self.grades,
            curves: &mut self.curves,
            speeds: &mut self.speeds,
            powers: &mut self.powers,
            districts: &mut self.districts,
        }
    }
}

// position TRAIN FRONT BACK LINK LINK OFFSET: the position, and the link numbers and the offset that a refused call leaves.
pub fn position(alloc: Global, columns: &Columns, args: &[&[u8]]) -> Result<Reply, Fault> {
    let [train, front, back, link_front, link_back, in_link] = args else {
        return Err(Fault::Unreadable);
    };
    let mut s = crate::fields::state(columns, train, front, back)?;
    s.link_idx_front = to_number(link_front)?;
    s.link_idx_back = to_number(link_back)?;
    s.offset_in_link = length(in_link)?;
    let p = Path::read(alloc, columns)?;
    let found = with_link_and_offset(s, p.record, &p.reading());
    Ok(Reply::state(s, found))
}

// posted OFFSET: the speed posted there.
pub fn posted(alloc: Global, columns: &Columns, args: &[&[u8]]) -> Result<Reply, Fault> {
    let [offset] = args else {
        return Err(Fault::Unreadable);
    };
    let x = length(offset)?;
    let p = Path::read(alloc, columns)?;
    let speed = posted_speed(p.record, x, &p.reading());
    Ok(Reply::from(speed.map(|v| v.0)))
}

// The answer to a list of trims, and the columns that it leaves.
#[derive(Drop)]
pub struct Trimmed {
    refusal: Option<Refusal>,
    counts: Counts,
    left: Path,
}

// trims OFFSET ..
pub fn trims(alloc: Global, columns: &Columns, args: &[&[u8]]) -> Result<Trimmed, Fault> {
    let xs = numbers::<f64>(alloc, args)?;
    let mut p = Path::read(alloc, columns)?;
    let before = p.record;
    let trimmed = clear_each(before, &xs, &mut p.lent());
    Ok(Trimmed {
        refusal: trimmed.err(),
        counts: Counts(ClearAnswer::told(before, trimmed)),
        left: p,
    })
}

// The counts of the path's record and those of the links that went.
#[derive(Clone, Copy)]
struct Counts(ClearAnswer);

impl fmt::Display for Counts {
    fn fmt<W: fmt::Write>(&self, f: &mut fmt::Formatter<W>) -> fmt::Result {
        let p = self.0.outcome.path;
        let gone = self.0.dropped;
        write!(
            f,
            "; counts {} {} {} {} {}; dropped {} {} {}",
            p.link_count,
            p.grade_count,
            p.curve_count,
            p.speed_count,
            p.power_count,
            gone.grade_count,
            gone.curve_count,
            gone.cat_power_count
        )
    }
}

impl fmt::Display for Path {
    fn fmt<W: fmt::Write>(&self, f: &mut fmt::Formatter<W>) -> fmt::Result {
        writeln!(
            f,
            "  links{};{}",
            Entries(&self.offsets),
            Entries(&self.numbers)
        )?;
        writeln!(f, "  grades{}", Entries(&self.grades))?;
        writeln!(f, "  curves{}", Entries(&self.curves))?;
        write!(f, "  speeds{}; ", Entries(&self.speeds))?;
        write!(
            f,
            "powers{};{}",
            Entries(&self.powers),
            Entries(&self.districts)
        )
    }
}

impl fmt::Display for Trimmed {
    fn fmt<W: fmt::Write>(&self, f: &mut fmt::Formatter<W>) -> fmt::Result {
        writeln!(f, "{}{}", Told(self.refusal), self.counts)?;
        write!(f, "{}", self.left)
    }
}
