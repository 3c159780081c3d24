// A run of the original, followed in a column of its speed points; a count of 0 says that it is not followed, or has stopped.
// Any column and count: each function asks the count against the column, and makes the struct of points itself.
ghost use Rattle.std.specs.Prelude.{◌≡◌, cond, [], ◌∷◌, leb, length};
ghost use Rattle.ieee.specs.Number.{+0};
ghost use Rattle.speed.specs.Points.{point};
ghost use Rattle.speed.specs.Column.{points, Holds, Leaves};
ghost use Rattle.speed.specs.Posted.{posted};
ghost use Rattle.original.specs.Original as spec;

use crate::insert::insert_as_original;
use column::Two;
use si::{Length, Velocity};
use speed::laid::Laid;
use speed::speed_column::SpeedColumn;
use speed::speed_limit::SpeedLimit;
use speed::speed_point::SpeedPoints;

// One point, at x: what `new` and a recalculation begin with.
pub fn begin(col: &mut [f64], x: Length, top: Velocity) -> usize
    ensures { Leaves col.new result (cond (leb 2 (length col.old)) (point x.0 top.0 ∷ []) []) }
{
    column::zero_from(&mut *col, 0);
    if col.len() < 2 {
        return 0;
    }
    column::put_record(&mut *col, 0, Two(x.0, top.0));
    1
}

// The n points that are in the column, and +0 past them; none where it is too short for n.
fn points_in(col: &mut [f64], n: usize) -> usize
    ensures { Leaves col.new result (spec.points_in n col.old) }
{
    if col.len() / 2 < n {
        column::zero_from(&mut *col, 0);
        return 0;
    }
    column::zero_from(&mut *col, 2 * n);
    n
}

// Lays a limit on the m points.
fn follow(col: &mut [f64], m: usize, l: Laid) -> usize
    requires { Holds col.old (points m col.old) }
    ensures { Leaves col.new result (spec.follow (length col.old) (points m col.old) l.start l.end l.value) }
{
    if m == 0 {
        return 0;
    }
    if col.len() / 2 < m + 2 {
        column::zero_from(&mut *col, 0);
        return 0;
    }
    let limit = SpeedLimit {
        offset_start: Length(l.start),
        offset_end: Length(l.end),
        speed: Velocity(l.value),
    };
    let mut points = SpeedColumn {
        col: &mut *col,
        count: m,
    };
    insert_as_original(&mut points, limit);
    points.count
}

// Lays the limits in turn on the n points.
pub fn lay(col: &mut [f64], n: usize, limits: &[Laid]) -> usize
    ensures { Leaves col.new result (spec.follow_all (length col.old) limits.now (spec.points_in n col.old)) }
{
    let mut m = points_in(&mut *col, n);
    for l in limits {
        m = follow(&mut *col, m, *l);
    }
    m
}

// The drop at a new beginning x.
pub fn drop_before(col: &mut [f64], n: usize, x: Length) -> usize
    ensures { Leaves col.new result (spec.clear_original (spec.points_in n col.old) x.0) }
{
    let m = points_in(&mut *col, n);
    let from = SpeedPoints::new(&*col, m).first_from(x);
    column::move_front(&mut *col, 2 * from, 2 * m);
    if m <= from {
        return 0;
    }
    let mut rest = SpeedColumn {
        col: &mut *col,
        count: m - from,
    };
    rest.set_offset(0, x);
    m - from
}

// The speed of the last of n points at or before x; 0 where there is none.
pub fn posted_by_original(col: &[f64], n: usize, x: Length) -> Velocity
    ensures { result.0 ≡ posted x.0 (spec.points_in n col.now) +0 }
{
    let mut v = Velocity(0.0);
    if col.len() / 2 < n {
        return v;
    }
    let points = SpeedPoints::new(col, n);
    for i in 0..n {
        if points.offset_at(i).0 <= x.0 {
            v = points.speed_at(i);
        }
    }
    v
}
