// insert_speed of the original: one limit on the points of a column. It releases a limit strictly between two points at the next point, not at its end.
ghost use Rattle.std.specs.Prelude.{◌≡◌, ◌<◌, length};
ghost use Rattle.speed.specs.Becomes.{points_of, HasRoom, Becomes};
ghost use Rattle.original.specs.Original as spec;

use speed::speed_column::SpeedColumn;
use speed::speed_limit::{SpeedLimit, min_speed};
use speed::speed_point::{SpeedLimitPoint, SpeedPoints};

// A limit strictly between point i and the one before it.
fn not_released(col: &mut SpeedColumn, i: usize, l: SpeedLimit)
    requires i_nonzero { 0 < i }
    requires i_lt_count { i < col.old.count }
    requires room { HasRoom 1 col.old }
    ensures { Becomes col.old col.new (spec.not_released l.offset_start.0 l.speed.0 i (points_of col.old)) }
{
    let s = l.offset_start;
    let u = col.points().speed_at(i - 1);
    let w = min_speed(u, l.speed);
    if u.0 != w.0 {
        col.insert_point(i, SpeedLimitPoint::new(s, w));
        col.drop_repeat(i + 1);
    } else {
        col.drop_repeat(i);
    }
}

// Whether the last point is after the limit's start, and the limit lies strictly between two points.
fn strictly_between(points: &SpeedPoints, l: SpeedLimit) -> bool
    requires { 0 < length points.now }
    ensures { result ≡ spec.strictly_between l.offset_start.0 l.offset_end.0 points.now }
{
    let last = points.len() - 1;
    if points.offset_at(last).0 <= l.offset_start.0 {
        return false;
    }
    let i = points.first_from(l.offset_start);
    if 0 < i {
        return (l.offset_start.0 <= l.offset_end.0) & (l.offset_end.0 < points.offset_at(i).0);
    }
    false
}

// Lays the limit on the points of a column.
pub fn insert_as_original(col: &mut SpeedColumn, l: SpeedLimit)
    requires some { 0 < col.old.count }
    requires room { HasRoom 2 col.old }
    ensures { Becomes col.old col.new
        (spec.insert_original (points_of col.old) l.offset_start.0 l.offset_end.0 l.speed.0) }
{
    let between = strictly_between(&col.points(), l);
    if between {
        let i = col.points().first_from(l.offset_start);
        not_released(&mut *col, i, l);
    } else {
        col.insert_speed(l);
    }
}
