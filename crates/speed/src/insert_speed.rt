// insert_speed: lays a limit on the points of a column, rule by rule.
ghost use Rattle.std.specs.Prelude.{◌≡◌, false, ◌+◌, ◌-◌, ◌*◌, ◌≤◌, ◌<◌, length};
ghost use Rattle.std.specs.Float.Ieee as Ieee;
ghost use Rattle.speed.specs.Points.{offset_at};
ghost use Rattle.speed.specs.Column.{points, Holds, Leaves};
ghost use Rattle.speed.specs.Becomes.{points_of, HasRoom, Becomes};
ghost use Rattle.speed.specs.Insert.{drop_repeat, merge, ends, lay_end, lay_start, between, lay_between, lay_limit, append_change, append_limit, insert_speed};

use crate::speed_column::SpeedColumn;
use crate::speed_limit::{SpeedLimit, min_speed};
use crate::speed_point::{SpeedLimitPoint, SpeedPoints};
use si::{Length, Velocity};

impl SpeedPoints<'_> {
    // Whether point j lies before e and the limit changes its speed.
    fn ends_after(&self, j: usize, e: Length, v: Velocity) -> bool
        requires { j < length self.now }
        ensures { result ≡ ends e.0 v.0 j self.now }
    {
        if self.offset_at(j).0 < e.0 {
            let w = self.speed_at(j);
            return w.0 != min_speed(w, v).0;
        }
        false
    }

    // Whether the limit lies strictly between point i, the first at or after its start, and the one before it.
    pub fn lies_between(&self, i: usize, l: SpeedLimit) -> bool
        requires { i < length self.now }
        ensures { result ≡ between l.offset_start.0 l.offset_end.0 i self.now }
    {
        if 0 < i {
            return (l.offset_start.0 <= l.offset_end.0) & (l.offset_end.0 < self.offset_at(i).0);
        }
        false
    }
}

impl SpeedColumn<'_> {
    // Takes point i out if the point before it has its speed.
    pub fn drop_repeat(&mut self, i: usize)
        requires { i < self.old.count }
        ensures { Becomes self.old self.new (drop_repeat i (points_of self.old)) }
    {
        let u = self.points().speed_at(i);
        if self.points().repeats_before(i, u) {
            self.remove_point(i);
        }
    }

    // Gives the points from i up to j the speed of the limit, and takes out those that repeat the speed before.
    fn merge_range(&mut self, i: usize, j: usize, v: Velocity)
        requires i_lt_count { i < self.old.count }
        requires j_lt_count { j < self.old.count }
        ensures { Becomes self.old self.new (merge v.0 (j - i) i (points_of self.old)) }
    {
        let mut a = i;
        for _ in i..j {
            let w = min_speed(self.points().speed_at(a), v);
            if self.points().repeats_before(a, w) {
                self.remove_point(a);
            } else {
                self.set_speed(a, w);
                a += 1;
            }
        }
        self.drop_repeat(a);
    }

    // The end of the limit, and then the points from i up to j.
    fn lay_end(&mut self, i: usize, j: usize, e: Length, v: Velocity)
        requires i_lt_count { i < self.old.count }
        requires j_lt_count { j < self.old.count }
        requires room { HasRoom 1 self.old }
        ensures { Becomes self.old self.new (lay_end e.0 v.0 i j (points_of self.old)) }
    {
        if self.points().ends_after(j, e, v) {
            let w = self.points().speed_at(j);
            self.insert_point(j + 1, SpeedLimitPoint::new(e, w));
            self.merge_range(i, j + 1, v);
        } else {
            self.merge_range(i, j, v);
        }
    }

    // The start of the limit, and then its end.
    fn lay_start(&mut self, i: usize, j: usize, l: SpeedLimit)
        requires i_lt_count { i < self.old.count }
        requires j_lt_count { j < self.old.count }
        requires room { HasRoom 2 self.old }
        ensures { Becomes self.old self.new
            (lay_start l.offset_start.0 l.offset_end.0 l.speed.0 i j (points_of self.old)) }
    {
        let s = l.offset_start;
        let e = l.offset_end;
        let v = l.speed;
        if s.0 < self.points().offset_at(i).0 {
            let u = self.points().speed_at(i.saturating_sub(1));
            let w = min_speed(u, v);
            if u.0 != w.0 {
                self.insert_point(i, SpeedLimitPoint::new(s, w));
                self.lay_end(i + 1, j + 1, e, v);
                return;
            }
        }
        self.lay_end(i, j, e, v);
    }

    // A limit strictly between point i and the one before it: it is released at its end.
    fn lay_between(&mut self, i: usize, l: SpeedLimit)
        requires i_nonzero { 0 < i }
        requires i_lt_count { i < self.old.count }
        requires room { HasRoom 2 self.old }
        ensures { Becomes self.old self.new
            (lay_between l.offset_start.0 l.offset_end.0 l.speed.0 i (points_of self.old)) }
    {
        let s = l.offset_start;
        let e = l.offset_end;
        let was = self.points().speed_at(i - 1);
        let low = min_speed(was, l.speed);
        if (s.0 < e.0) & (was.0 != low.0) {
            self.insert_two(
                i,
                SpeedLimitPoint::new(s, low),
                SpeedLimitPoint::new(e, was),
            );
        }
    }

    // A limit whose start lies before the last point.
    fn lay_limit(&mut self, l: SpeedLimit)
        requires some { 0 < self.old.count }
        requires room { HasRoom 2 self.old }
        requires before_last { Ieee.le (offset_at (points_of self.old) (self.old.count - 1)) l.offset_start.0 ≡ false }
        ensures { Becomes self.old self.new
            (lay_limit l.offset_start.0 l.offset_end.0 l.speed.0 (points_of self.old)) }
    {
        let i = self.points().first_from(l.offset_start);
        if self.points().lies_between(i, l) {
            self.lay_between(i, l);
        } else {
            let j = self.points().last_from(l.offset_end);
            self.lay_start(i, j, l);
        }
    }

    // The last point is at or before the limit's start, and its speed u is to become w.
    fn append_change(&mut self, l: SpeedLimit, u: Velocity, w: Velocity)
        requires some { 0 < self.old.count }
        requires room { HasRoom 2 self.old }
        ensures { Becomes self.old self.new
            (append_change (self.old.count - 1) l.offset_start.0 l.offset_end.0 u.0 w.0 (points_of self.old)) }
    {
        let s = l.offset_start;
        let e = l.offset_end;
        let n = self.count;
        if self.points().offset_at(n - 1).0 < s.0 {
            self.insert_point(n, SpeedLimitPoint::new(s, w));
            self.insert_point(n + 1, SpeedLimitPoint::new(e, u));
        } else if self.points().repeats_before(n - 1, w) {
            self.set_offset(n - 1, e);
        } else {
            self.set_speed(n - 1, w);
            self.insert_point(n, SpeedLimitPoint::new(e, u));
        }
    }

    // A limit whose start is at or after the last point.
    fn append_limit(&mut self, l: SpeedLimit)
        requires some { 0 < self.old.count }
        requires room { HasRoom 2 self.old }
        ensures { Becomes self.old self.new
            (append_limit l.offset_start.0 l.offset_end.0 l.speed.0 (points_of self.old)) }
    {
        let last = self.count - 1;
        let u = self.points().speed_at(last);
        let w = min_speed(u, l.speed);
        if u.0 != w.0 {
            self.append_change(l, u, w);
        }
    }

    // Lays the limit.
    pub fn insert_speed(&mut self, l: SpeedLimit)
        requires some { 0 < self.old.count }
        requires room { HasRoom 2 self.old }
        ensures { Becomes self.old self.new
            (insert_speed (points_of self.old) l.offset_start.0 l.offset_end.0 l.speed.0) }
    {
        let last = self.count - 1;
        if self.points().offset_at(last).0 <= l.offset_start.0 {
            self.append_limit(l);
        } else {
            self.lay_limit(l);
        }
    }
}

// Lays the limit on the n points of a lent column, of which the struct is made here; the count afterwards.
pub fn insert_speed(col: &mut [f64], n: usize, l: SpeedLimit) -> usize
    requires n_nonzero { 0 < n }
    requires n_in_bounds { 2 * (n + 2) ≤ length col.old }
    requires holds { Holds col.old (points n col.old) }
    ensures { Leaves col.new result (insert_speed (points n col.old) l.offset_start.0 l.offset_end.0 l.speed.0) }
{
    let mut points = SpeedColumn {
        col: &mut *col,
        count: n,
    };
    points.insert_speed(l);
    points.count
}
