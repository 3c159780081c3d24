// The rows (R136 to R153), run through the code and printed as it answers them.
#![tactic(auto)]

use answer::{Answer, Refusal};
use lookup::calc_idx::calc_idx;
use lookup::lin_search_hint::Dir;
use path::columns::PathColumnsMut;
use path::link_point::LinkPoint;
use path::path_tpc::PathTpc;
use path_clear::clear::{ClearAnswer, clear};
use show::{Sink, Whole};
use si::{Length, Velocity};
use speed::insert_speed::insert_speed;
use speed::speed_limit::SpeedLimit;
use std::fmt;

// The numbers of a column, each behind a blank.
#[derive(Clone, Copy)]
struct Numbers<'a>(&'a [f64]);

impl fmt::Display for Numbers<'_> {
    fn fmt<W: fmt::Write>(&self, f: &mut fmt::Formatter<W>) -> fmt::Result {
        for x in self.0 {
            write!(f, " {}", Whole(*x))?;
        }
        Ok(())
    }
}

// The points of a column, each behind a blank.
#[derive(Clone, Copy)]
struct Points<'a>(&'a [f64]);

impl fmt::Display for Points<'_> {
    fn fmt<W: fmt::Write>(&self, f: &mut fmt::Formatter<W>) -> fmt::Result {
        for p in self.0.chunks_exact(2) {
            write!(f, " ({},{})", Whole(p[0]), Whole(p[1]))?;
        }
        Ok(())
    }
}

// As many records of a column, w entries each, as there are, at most n.
fn first(col: &[f64], n: usize, w: usize) -> &[f64] {
    col.get(..n.saturating_mul(w)).unwrap_or(col)
}

// Lays a limit on the n points of a column that has room, and zeros past them.
fn lay(col: &mut [f64], n: usize, l: SpeedLimit) -> usize {
    if n == 0 {
        return n;
    }
    if col.len() / 2 < n {
        return n;
    }
    if col.len() / 2 - n < 2 {
        return n;
    }
    column::zero_from(&mut *col, 2 * n);
    insert_speed(&mut *col, n, l)
}

// One row of the S rows; the count of points afterwards.
fn s_row(out: Sink, name: &str, col: &mut [f64], n: usize, from: f64, to: f64, at: f64) -> usize {
    let m = lay(
        &mut *col,
        n,
        SpeedLimit {
            offset_start: Length(from),
            offset_end: Length(to),
            speed: Velocity(at),
        },
    );
    write!(out, "{name}{}\n", Points(first(col, m, 2)));
    m
}

// The one point (0,30), in a column of the bound that the rows need.
fn one_point() -> [f64; 16] {
    let mut a = [0.0; 16];
    a[1] = 30.0;
    a
}

// The points (0,30) and (100,20).
fn two_points() -> [f64; 16] {
    let mut a = one_point();
    a[2] = 100.0;
    a[3] = 20.0;
    a
}

// A row that starts from (0,30),(100,20).
fn from_two(out: Sink, name: &str, from: f64, to: f64, at: f64) {
    s_row(out, name, &mut two_points(), 2, from, to, at);
}

fn s_rows(out: Sink) {
    let mut a = one_point();
    let n = s_row(out, "S1", &mut a, 1, 20.0, 40.0, 15.0);
    s_row(out, "S2", &mut a, n, 40.0, 60.0, 15.0);
    s_row(out, "S3", &mut one_point(), 1, 0.0, 10.0, 20.0);
    from_two(out, "S4", 20.0, 40.0, 15.0);
    from_two(out, "S5", 20.0, 100.0, 15.0);
    from_two(out, "S6", 50.0, 150.0, 25.0);
    from_two(out, "S7", 50.0, 150.0, 10.0);
    s_row(out, "S8", &mut one_point(), 1, 5.0, 9.0, -12.0);
}

// The number of a refusal; nothing for "done".
#[derive(Clone, Copy)]
struct Refused(Answer);

impl fmt::Display for Refused {
    fn fmt<W: fmt::Write>(&self, f: &mut fmt::Formatter<W>) -> fmt::Result {
        if self.0.number == 0 {
            return Ok(());
        }
        write!(f, " refused with {}", self.0.number)
    }
}

// The grades, curves and power limits that went.
#[derive(Clone, Copy)]
struct Gone(LinkPoint);

impl fmt::Display for Gone {
    fn fmt<W: fmt::Write>(&self, f: &mut fmt::Formatter<W>) -> fmt::Result {
        let d = self.0;
        write!(
            f,
            "; dropped {} {} {}",
            d.grade_count, d.curve_count, d.cat_power_count
        )
    }
}

// One row of the T rows: links 1 and 2 from 0 to 100 and from there to 250, each with one flat grade and curve record, and n speed points.
fn t_row(out: Sink, name: &str, mut speeds: [f64; 16], n: usize, x: f64) {
    let mut offsets: [f64; 3] = [0.0, 100.0, 250.0];
    let mut numbers: [u32; 12] = [1, 1, 0, 1, 1, 1, 0, 2, 0, 0, 0, 2];
    let mut grades: [f64; 9] = [0.0, 0.0, 0.0, 100.0, 0.0, 0.0, 250.0, 0.0, 0.0];
    let mut curves: [f64; 9] = [0.0, 0.0, 0.0, 100.0, 0.0, 0.0, 250.0, 0.0, 0.0];
    let mut powers = [0.0; 3];
    let mut districts = [0; 1];
    let p = PathTpc {
        link_count: 3,
        grade_count: 3,
        curve_count: 3,
        speed_count: n,
        power_count: 0,
        is_finished: false,
    };
    let mut cols = PathColumnsMut {
        offsets: &mut offsets,
        numbers: &mut numbers,
        grades: &mut grades,
        curves: &mut curves,
        speeds: &mut speeds,
        powers: &mut powers,
        districts: &mut districts,
    };
    let r = ClearAnswer::told(p, clear(p, Length(x), &mut cols));
    let left = r.outcome.path;
    let points = Points(first(&speeds, left.speed_count, 2));
    let links = Numbers(first(&offsets, left.link_count, 1));
    write!(
        out,
        "{name}{}{points}; links{links}{}\n",
        Refused(r.outcome.answer),
        Gone(r.dropped)
    );
}

// The points (0,30), (50,20) and (200,30).
fn three_points() -> [f64; 16] {
    let mut a = one_point();
    a[2] = 50.0;
    a[3] = 20.0;
    a[4] = 200.0;
    a[5] = 30.0;
    a
}

fn t_rows(out: Sink) {
    t_row(out, "T1", three_points(), 3, 120.0);
    t_row(out, "T2", three_points(), 3, 100.0);
    t_row(out, "T3", two_points(), 2, 120.0);
    t_row(out, "T4", two_points(), 2, 251.0);
}

// What a lookup answers: the index, or the number of the refusal.
#[derive(Clone, Copy)]
struct Told(Result<usize, Refusal>);

impl fmt::Display for Told {
    fn fmt<W: fmt::Write>(&self, f: &mut fmt::Formatter<W>) -> fmt::Result {
        match self.0 {
            Ok(i) => write!(f, " {i}"),
            Err(e) => write!(f, " refused with {}", e.question.number()),
        }
    }
}

// One row of the L rows, over records at 0, 100 and 250.
fn l_row(out: Sink, name: &str, offset: f64, hint: usize, dir: Dir) {
    let list = [0.0, 0.0, 0.0, 100.0, 0.0, 0.0, 250.0, 0.0, 0.0];
    write!(
        out,
        "{name}{}\n",
        Told(calc_idx(&list, 3, Length(offset), hint, dir))
    );
}

fn l_rows(out: Sink) {
    l_row(out, "L1", 100.0, 0, Dir::Fwd);
    l_row(out, "L2", 101.0, 0, Dir::Fwd);
    l_row(out, "L3", 100.0, 2, Dir::Bwd);
    l_row(out, "L4", 50.0, 1, Dir::Fwd);
    l_row(out, "L5", 100.0, 2, Dir::Fwd);
    l_row(out, "L6", 251.0, 0, Dir::Fwd);
}

fn main(rt: HostRuntime) {
    let out = Sink::Output(rt.stdout());
    s_rows(out);
    t_rows(out);
    l_rows(out);
}
