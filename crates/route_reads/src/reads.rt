// The calls that read the path, as lines of a route.
use answer::Refusal;
use link::train_params::TrainParams;
use lookup::lin_search_hint::Dir;
use messages::outcomes::Refused;
use messages::refusals::{CallLine, reading_refused};
use path::columns::PathColumns;
use path::lines::Lines;
use path::path_tpc::PathTpc;
use path_link_records::link_records::link_records;
use path_posted::posted_speed::posted_speed;
use resistance::strap::{Strap, StrapForce};
use route::fields::{bytes_at, count_at, direction_of, float_at};
use route::kinds::Call;
use show::{Rounded, Sink, To};
use si::{Force, Length};
use std::fmt;
use train::set_link_and_offset::with_link_and_offset;
use train::train_state::TrainState;

// A path: its record and its columns.
#[derive(Clone, Copy)]
pub struct PathView<'a> {
    pub record: PathTpc,
    pub columns: PathColumns<'a, 'a, 'a>,
}

// The straps of grades and curves.
#[derive(Clone, Copy)]
pub struct Straps {
    pub grade: Strap,
    pub curve: Strap,
}

impl Straps {
    // The straps behind a drop of so many grades and curves; none where an index would fall below 0.
    pub fn fixed(self, grades: usize, curves: usize) -> Option<Straps> {
        let grade = self.grade.fix_cache(grades).ok()?;
        let curve = self.curve.fix_cache(curves).ok()?;
        Some(Straps { grade, curve })
    }
}

// The resistance of one list, or why there is none.
#[derive(Clone, Copy)]
struct Resistance(Result<StrapForce, Refusal>);

impl fmt::Display for Resistance {
    fn fmt<W: fmt::Write>(&self, f: &mut fmt::Formatter<W>) -> fmt::Result {
        match self.0 {
            Ok(there) => write!(f, "done, {} N", Rounded(there.res.0)),
            Err(refusal) => write!(f, "{}", Refused(refusal)),
        }
    }
}

// A position with its front and its back at these offsets.
fn position(train: TrainParams, front: f64, back: f64, weight: f64) -> TrainState {
    TrainState {
        offset: Length(front),
        offset_back: Length(back),
        length: Length(train.length.0),
        weight_static: Force(weight),
        link_idx_front: 0,
        link_idx_back: 0,
        offset_in_link: Length(0.0),
    }
}

// Where the train stands.
fn locate(out: Sink, state: TrainState, p: &PathView) -> Result<(), Refusal> {
    let t = with_link_and_offset(state, p.record, &p.columns)?;
    let front = t.link_idx_front;
    let back = t.link_idx_back;
    let at = Rounded(t.offset_in_link.0);
    write!(
        out,
        "done: front in link {front} at {at}, back in link {back}\n"
    );
    Ok(())
}

// The speed posted at an offset.
fn posted(out: Sink, x: f64, p: &PathView) -> Result<(), Refusal> {
    let speed = posted_speed(p.record, Length(x), &p.columns)?;
    write!(out, "done: {}\n", Rounded(speed.0));
    Ok(())
}

// The grade or curve records of link k: offset, thousandths, value.
fn list_records(out: Sink, lines: Lines, k: usize, p: &PathView) -> Result<(), Refusal> {
    let records = link_records(lines, p.record, k, &p.columns)?;
    write!(out, "done\n");
    for g in records.chunks_exact(3) {
        let offset = Rounded(g[0]);
        let per_mille = Rounded(g[1] * 1000.0);
        write!(
            out,
            "{offset:12}{per_mille:12} per mille{:12}\n",
            Rounded(g[2])
        );
    }
    Ok(())
}

// The power limits of a path: from, to, watts, district.
pub fn list_powers(out: Sink, p: &PathView) {
    let n = p.record.power_count;
    write!(out, "{n} power limits\n");
    for i in 0..n {
        let w = column::record_at::<column::Three>(p.columns.powers, i);
        let district = column::get(p.columns.districts, i);
        write!(
            out,
            "{:12}{:12}{:14} W  district {district}\n",
            Rounded(w.0),
            Rounded(w.1),
            Rounded(w.2)
        );
    }
}

// The resistance of one list, by a strap that stands in it or a new one.
fn resisted(
    strap: Option<Strap>,
    col: &[f64],
    n: usize,
    state: TrainState,
    dir: Dir,
) -> Result<StrapForce, Refusal> {
    let placed = match strap {
        Some(strap) => strap,
        None => Strap::new(col, n, state)?,
    };
    placed.calc_res(col, n, state, dir)
}

// Grade and curve resistance: the straps behind them; none where either is refused.
pub fn resistance_line(
    to: To,
    line: &CallLine,
    train: TrainParams,
    s: Option<Straps>,
    p: &PathView,
) -> Option<Straps> {
    let words = line.words;
    let dir = direction_of(bytes_at(words, 0, 1)).unwrap_or(Dir::Unk);
    let x = float_at(words, 0, 2);
    let state = position(train, x, float_at(words, 0, 3), float_at(words, 0, 4));
    let c = &p.columns;
    let n = p.record.grade_count;
    let grade = resisted(s.map(|s| s.grade), c.grades, n, state, dir);
    let n = p.record.curve_count;
    let curve = resisted(s.map(|s| s.curve), c.curves, n, state, dir);
    write!(
        to.out,
        "grade {}\n  curve {}\n",
        Resistance(grade),
        Resistance(curve)
    );
    let both = grade.and_then(|grade| {
        curve.map(|curve| Straps {
            grade: grade.strap,
            curve: curve.strap,
        })
    });
    if let Err(refusal) = both {
        reading_refused(to.err, line, refusal, x, p.record, c.offsets);
    }
    both.ok()
}

// The call of a line: locate, posted, grades or curves.
fn called(out: Sink, line: &CallLine, train: TrainParams, p: &PathView) -> Result<(), Refusal> {
    let words = line.words;
    let x = float_at(words, 0, 1);
    match line.call {
        Call::Locate => locate(out, position(train, x, float_at(words, 0, 2), 0.0), p),
        Call::Posted => posted(out, x, p),
        Call::Curves => list_records(out, Lines::Curves, count_at(words, 0, 1) as usize, p),
        _ => list_records(out, Lines::Grades, count_at(words, 0, 1) as usize, p),
    }
}

// The same, a refusal told with its reason; whether it is done.
pub fn read_line(to: To, line: &CallLine, train: TrainParams, p: &PathView) -> bool {
    let Err(refusal) = called(to.out, line, train, p) else {
        return true;
    };
    write!(to.out, "{}\n", Refused(refusal));
    let x = float_at(line.words, 0, 1);
    reading_refused(to.err, line, refusal, x, p.record, p.columns.offsets);
    false
}
