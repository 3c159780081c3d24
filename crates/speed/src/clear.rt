// The drop of the points before a new beginning, R52.
ghost use Rattle.std.specs.Prelude.{◌*◌, ◌≤◌, ◌<◌, ◌≡◌, length};
ghost use Rattle.speed.specs.Column.{points, Leaves};
ghost use Rattle.speed.specs.Clear.{clear_points, clear_from};

use crate::speed_column::SpeedColumn;
use crate::speed_point::SpeedPoints;
use si::Length;

impl SpeedPoints<'_> {
    // The first point that stays: the first at X, or else the last before it.
    fn kept_from(&self, x: Length) -> usize
        requires { 0 < length self.now }
        ensures { result ≡ clear_from self.now x.0 }
    {
        let k = self.first_from(x);
        if k < self.len() && self.offset_at(k).0 == x.0 {
            return k;
        }
        k.saturating_sub(1)
    }
}

// Drops the points before x, the new beginning, and moves the first that stays to x; the count afterwards. It makes the struct of the lent column.
pub fn clear_points(col: &mut [f64], n: usize, x: Length) -> usize
    requires n_nonzero { 0 < n }
    requires n_in_bounds { 2 * n ≤ length col.old }
    ensures { Leaves col.new result (clear_points (points n col.old) x.0) }
{
    let from = SpeedPoints::new(&*col, n).kept_from(x);
    column::move_front(&mut *col, 2 * from, 2 * n);
    let mut kept = SpeedColumn {
        col: &mut *col,
        count: n - from,
    };
    kept.set_offset(0, x);
    kept.count
}
