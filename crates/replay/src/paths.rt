// The path: its record and its columns.
use crate::print::{Reals, Values, bits};
use answer::Refusal;
use link::network::Network;
use link::train_params::TrainParams;
use path::columns::{PathColumns, PathColumnsMut};
use path::lines::Lines;
use path::link_point::{LinkPoint, link_point_at};
use path::path_tpc::PathTpc;
use path_link_records::link_records::link_range;
use si::Length;
use std::fmt;
use train::set_link_and_offset::with_link_and_offset;
use train::train_state::TrainState;

#[derive(Drop)]
pub struct Path<'a> {
    pub record: PathTpc,
    pub columns: PathColumnsMut<'a>,
}

impl Path<'_> {
    // What a call that may change the path answers, with the record that it leaves; a refused one leaves the record.
    fn settled(&mut self, r: Result<PathTpc, Refusal>) -> Result<Values, Refusal> {
        self.record = r?;
        Ok(Values::index(self.record.is_finished as usize))
    }

    pub fn start(&mut self, train: TrainParams) -> Result<Values, Refusal> {
        let r = path_ends::new::new(train, &mut self.columns);
        self.settled(r)
    }

    pub fn extend(
        &mut self,
        train: TrainParams,
        list: &[u32],
        t: Network,
    ) -> Result<Values, Refusal> {
        let p = self.record;
        let r = path_extend::extend::extend(p, train, list, &mut self.columns, &t);
        self.settled(r)
    }

    pub fn recalc_speeds(&mut self, train: TrainParams, t: Network) -> Result<Values, Refusal> {
        let p = self.record;
        let r = path_speeds::recalc_speeds::recalc_speeds(p, train, &mut self.columns, &t);
        self.settled(r)
    }

    pub fn finish(&mut self) -> Result<Values, Refusal> {
        let p = self.record;
        let r = path_ends::finish::finish(p, &mut self.columns);
        self.settled(r)
    }

    pub fn reindex(&mut self, list: &[u32]) -> Result<Values, Refusal> {
        let p = self.record;
        let r = path_reindex::reindex::reindex(p, list, &mut self.columns);
        self.settled(r)
    }

    pub fn clear(&mut self, x: f64) -> Result<Cleared, Refusal> {
        let p = self.record;
        let trimmed = path_clear::clear::clear(p, Length(x), &mut self.columns)?;
        let values = self.settled(Ok(trimmed.path))?;
        Ok(Cleared {
            values,
            dropped: Point(trimmed.dropped),
        })
    }

    pub fn position(&self, state: TrainState) -> Result<Values, Refusal> {
        let s = with_link_and_offset(state, self.record, &self.columns.reading())?;
        let links = Values::indices(s.link_idx_front as usize, s.link_idx_back as usize);
        Ok(links.with_value(s.offset_in_link.0))
    }

    // Where a link's grades or curves lie.
    pub fn link_range(&self, k: usize, lines: Lines) -> Result<Values, Refusal> {
        let range = link_range(lines, self.record, k, &self.columns.reading())?;
        Ok(Values::indices(range.from, range.len))
    }

    // Whether every entry past the records is zero.
    fn is_clean(&self) -> bool {
        let p = self.record;
        let c = self.columns.reading();
        zero_reals(rest(c.offsets, p.link_count, 1))
            & zero_numbers(rest(c.numbers, p.link_count, 4))
            & zero_reals(rest(c.grades, p.grade_count, 3))
            & zero_reals(rest(c.curves, p.curve_count, 3))
            & zero_reals(rest(c.speeds, p.speed_count, 2))
            & zero_reals(rest(c.powers, p.power_count, 3))
            & zero_numbers(rest(c.districts, p.power_count, 1))
    }
}

// What `clear` answers, with the dropped link point.
#[derive(Clone, Copy)]
pub struct Cleared {
    values: Values,
    dropped: Point,
}

impl fmt::Display for Cleared {
    fn fmt<W: fmt::Write>(&self, f: &mut fmt::Formatter<W>) -> fmt::Result {
        write!(f, "{}{}", self.values, self.dropped)
    }
}

// A link point.
#[derive(Clone, Copy)]
struct Point(LinkPoint);

impl fmt::Display for Point {
    fn fmt<W: fmt::Write>(&self, f: &mut fmt::Formatter<W>) -> fmt::Result {
        let l = self.0;
        write!(
            f,
            " {:016x} {:x} {:x} {:x} {:x}",
            bits(l.offset.0),
            l.grade_count,
            l.curve_count,
            l.cat_power_count,
            l.link_idx
        )
    }
}

// The link points of a path, and its power limits.
#[derive(Clone, Copy)]
struct Points<'a>(PathTpc, PathColumns<'a, 'a, 'a>);

impl fmt::Display for Points<'_> {
    fn fmt<W: fmt::Write>(&self, f: &mut fmt::Formatter<W>) -> fmt::Result {
        for i in 0..self.0.link_count {
            let l = link_point_at(self.1.offsets, self.1.numbers, i);
            write!(f, "{}", Point(l))?;
        }
        Ok(())
    }
}

#[derive(Clone, Copy)]
struct Limits<'a>(PathTpc, PathColumns<'a, 'a, 'a>);

impl fmt::Display for Limits<'_> {
    fn fmt<W: fmt::Write>(&self, f: &mut fmt::Formatter<W>) -> fmt::Result {
        for i in 0..self.0.power_count {
            let t = column::record_at::<column::Three>(self.1.powers, i);
            let district = column::get(self.1.districts, i);
            write!(f, "{} {district:x}", Reals(&[t.0, t.1, t.2]))?;
        }
        Ok(())
    }
}

// The first n records of a column, w entries each, and what is behind them; all entries and none where it does not hold as many.
fn first<T>(col: &[T], n: usize, w: usize) -> &[T] {
    col.get(..n.saturating_mul(w)).unwrap_or(col)
}

fn rest<T>(col: &[T], n: usize, w: usize) -> &[T] {
    col.get(n.saturating_mul(w)..).unwrap_or(&[])
}

// Whether every entry of a column is +0.
fn zero_reals(col: &[f64]) -> bool {
    col.iter().all(|x| bits(*x) == 0)
}

fn zero_numbers(col: &[u32]) -> bool {
    col.iter().all(|n| *n == 0)
}

// The five lists of a path, and 0 where every entry past them is zero, else 1.
impl fmt::Display for Path<'_> {
    fn fmt<W: fmt::Write>(&self, f: &mut fmt::Formatter<W>) -> fmt::Result {
        let p = self.record;
        let c = self.columns.reading();
        writeln!(f, "links{}", Points(p, c))?;
        writeln!(f, "grades{}", Reals(first(c.grades, p.grade_count, 3)))?;
        writeln!(f, "curves{}", Reals(first(c.curves, p.curve_count, 3)))?;
        writeln!(f, "speeds{}", Reals(first(c.speeds, p.speed_count, 2)))?;
        writeln!(f, "powers{}", Limits(p, c))?;
        write!(f, "rest {}", u8::from(!self.is_clean()))
    }
}
