// `clear`: the links behind an offset go.
ghost use Rattle.std.specs.Prelude.{◌≡◌, true, ◌+◌, ◌<◌, take, drop};
ghost use Rattle.answer.specs.Answers.{answer};
ghost use Rattle.path.specs.Records.{lent, held, Same, link_points, path_of};
ghost use Rattle.path.specs.Answers.{changed};
ghost use Rattle.path.specs.Sound.{sound, totals};
ghost use Rattle.path_clear.specs.Clear as spec;

use answer::{Question, Refusal};
use path::columns::{PathColumns, PathColumnsMut};
use path::link_point::{LinkPoint, add_counts};
use path::path_tpc::{PathAnswer, PathTpc};
use path::questions::path_answer;
use si::Length;
use speed::clear::clear_points;

// What a drop of links leaves: the path's record, and the counts of the links that went.
#[derive(Clone, Copy)]
pub struct Trimmed {
    pub path: PathTpc,
    pub dropped: LinkPoint,
}

// The same with the answer, as C is told it.
#[repr(C)]
#[derive(Clone, Copy)]
pub struct ClearAnswer {
    pub outcome: PathAnswer,
    pub dropped: LinkPoint,
}

impl ClearAnswer {
    // What C is told of a drop on the path p: a refused one has no counts.
    pub fn told(p: PathTpc, r: Result<Trimmed, Refusal>) -> ClearAnswer
        ensures { result ≡ spec.trimmed_told p r }
    {
        match r {
            Ok(t) => ClearAnswer {
                outcome: PathAnswer::told(p, Ok(t.path)),
                dropped: t.dropped,
            },
            Err(e) => ClearAnswer {
                outcome: PathAnswer::told(p, Err(e)),
                dropped: LinkPoint {
                    offset: Length(0.0),
                    grade_count: 0,
                    curve_count: 0,
                    cat_power_count: 0,
                    link_idx: 0,
                },
            },
        }
    }
}

// The first link point that stays, of those from `from` to the last of n: the first whose next one is not before x.
pub fn drop_from(cols: &PathColumns, n: usize, from: usize, x: f64) -> usize
    requires { from < n }
    ensures { result ≡ from + spec.drop_count x (drop from (link_points n cols.now.offsets.now cols.now.numbers.now)) }
{
    let last = n - 1;
    for i in from..last {
        if !(column::get(cols.offsets, i + 1) < x) {
            return i;
        }
    }
    last
}

// Question 10: x lies between the first and the last of n link points.
fn in_range(cols: &PathColumns, n: usize, x: Length) -> bool
    requires { 0 < n }
    ensures { result ≡ spec.in_range x.0 (link_points n cols.now.offsets.now cols.now.numbers.now) }
{
    let first = column::get(cols.offsets, 0);
    let last = column::get(cols.offsets, n - 1);
    (first <= x.0) & (x.0 <= last)
}

// Questions 1, 2, 10 and 12.
fn clear_answer(p: PathTpc, x: Length, cols: &PathColumns) -> Result<(), Refusal>
    ensures { answer result ≡ spec.clear_answer x.0 p (lent cols.now) }
{
    path_answer(p, ieee::is_finite(x.0), cols)?;
    Question::InRange.ask(in_range(cols, p.link_count, x))?;
    Question::Drops.ask(2 <= p.link_count)
}

// The path without its first d links, whose counts are dropped.
fn cut(p: PathTpc, d: usize, dropped: LinkPoint, cols: &mut PathColumnsMut) -> PathTpc
    requires known { sound p (held cols.old) ≡ true }
    requires d_bound { d < p.link_count }
    requires counts { dropped ≡ totals (take d (path_of p (held cols.old)).links) }
    ensures same { Same cols.old cols.new }
    ensures outcome { spec.done_left result (held cols.new) ≡ changed (held cols.old) (spec.without_links d (path_of p (held cols.old))) }
{
    let begin = Length(column::get(cols.reading().offsets, d));
    column::move_front(&mut *cols.offsets, d, p.link_count);
    column::move_front(&mut *cols.numbers, 4 * d, 4 * p.link_count);
    column::move_front(
        &mut *cols.grades,
        3 * dropped.grade_count,
        3 * p.grade_count,
    );
    column::move_front(
        &mut *cols.curves,
        3 * dropped.curve_count,
        3 * p.curve_count,
    );
    let speed_count = clear_points(&mut *cols.speeds, p.speed_count, begin);
    column::move_front(
        &mut *cols.powers,
        3 * dropped.cat_power_count,
        3 * p.power_count,
    );
    column::move_front(&mut *cols.districts, dropped.cat_power_count, p.power_count);
    PathTpc {
        link_count: p.link_count - d,
        grade_count: p.grade_count - dropped.grade_count,
        curve_count: p.curve_count - dropped.curve_count,
        speed_count,
        power_count: p.power_count - dropped.cat_power_count,
        is_finished: p.is_finished,
    }
}

// The change that a drop of d links makes once its questions are answered.
pub fn cleared(p: PathTpc, d: usize, cols: &mut PathColumnsMut) -> Trimmed
    requires known { sound p (held cols.old) ≡ true }
    requires d_bound { d < p.link_count }
    ensures same { Same cols.old cols.new }
    ensures outcome { spec.done_left result.path (held cols.new) ≡ changed (held cols.old) (spec.cleared_path d (path_of p (held cols.old))) }
    ensures counts { result.dropped ≡ totals (take d (path_of p (held cols.old)).links) }
{
    let now = cols.reading();
    let dropped = add_counts(now.offsets, now.numbers, d);
    if d == 0 {
        cols.zero_rest(p);
        return Trimmed { path: p, dropped };
    }
    let path = cut(p, d, dropped, cols);
    Trimmed { path, dropped }
}

// Drops the links behind x; the limit that the train stands in stays posted.
pub fn clear(p: PathTpc, x: Length, cols: &mut PathColumnsMut) -> Result<Trimmed, Refusal>
    ensures same { Same cols.old cols.new }
    ensures outcome { spec.trimmed_left (spec.trimmed_told p result) (held cols.new) ≡ spec.clear_of x.0 p (held cols.old) }
{
    clear_answer(p, x, &cols.reading())?;
    let d = drop_from(&cols.reading(), p.link_count, 0, x.0);
    Ok(cleared(p, d, cols))
}
