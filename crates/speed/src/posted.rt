// The speed posted at an offset.
ghost use Rattle.std.specs.Prelude.{◌<◌, ◌≡◌, true, length};
ghost use Rattle.std.specs.Float.Ieee as Ieee;
ghost use Rattle.ieee.specs.Number.{+0};
ghost use Rattle.speed.specs.Points.{offset_at};
ghost use Rattle.speed.specs.Posted.{posted, Sorted};

use crate::speed_point::SpeedPoints;
use si::{Length, Velocity};

impl SpeedPoints<'_> {
    // The speed of the last of sorted points at or before x, searched by halves: point lo is at or before x, point hi after it or past the last.
    // A `while`, since its ends do not step; std's partition_point wants a slice of points, and here each is two entries of a flat column.
    pub fn posted_at(&self, x: Length) -> Velocity
        requires some { 0 < length self.now }
        requires sorted { Sorted self.now }
        requires x_value { Ieee.le (offset_at self.now 0) x.0 ≡ true }
        ensures { result.0 ≡ posted x.0 self.now +0 }
    {
        let mut lo = 0;
        let mut hi = self.len();
        while 1 < hi - lo {
            let mid = lo + (hi - lo) / 2;
            if self.offset_at(mid).0 <= x.0 {
                lo = mid;
            } else {
                hi = mid;
            }
        }
        self.speed_at(lo)
    }
}
