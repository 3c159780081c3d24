// A lent column of speed points: `count` points, (offset, speed) of each, and +0 past the last.
ghost use Rattle.std.specs.Prelude.{◌≡◌, ◌+◌, ◌-◌, ◌≤◌, ◌<◌, length};
ghost use Rattle.column.specs.Entries.{insert_at, remove_at};
ghost use Rattle.speed.specs.Points.{point_of, set_speed, set_offset};
ghost use Rattle.speed.specs.Column.{points, Holds};

use crate::speed_point::{SpeedLimitPoint, SpeedPoints};
use column::Two;
use si::{Length, Velocity};

// The column that the caller lends, and how many points it holds.
#[derive(Drop)]
pub struct SpeedColumn<'a> {
    pub col: &'a mut [f64],
    pub count: usize,
    pub ghost holds: { Holds col.now (points count col.now) },
}

impl SpeedColumn<'_> {
    ghost use Rattle.speed.specs.Becomes.{points_of, HasRoom, Becomes};

    // The points, to read.
    pub fn points(&self) -> SpeedPoints<'_>
        ensures are { result ≡ points_of self.now }
        ensures count { length result ≡ self.now.count }
    {
        SpeedPoints::new(&*self.col, self.count)
    }

    // Moves point i to another offset.
    #[tactic(auto, using(crate::proofs::PointColumn::fits_points))]
    pub fn set_offset(&mut self, i: usize, o: Length)
        requires { i < self.old.count }
        ensures becomes { Becomes self.old self.new (set_offset i o.0 (points_of self.old)) }
        ensures count { self.new.count ≡ self.old.count }
    {
        self.col[2 * i] = o.0;
    }

    // Gives point i another speed.
    #[tactic(auto, using(crate::proofs::PointColumn::fits_points))]
    pub fn set_speed(&mut self, i: usize, v: Velocity)
        requires { i < self.old.count }
        ensures becomes { Becomes self.old self.new (set_speed i v.0 (points_of self.old)) }
        ensures count { self.new.count ≡ self.old.count }
    {
        self.col[2 * i + 1] = v.0;
    }

    // Puts a point in at i.
    pub fn insert_point(&mut self, i: usize, p: SpeedLimitPoint)
        requires i_le_count { i ≤ self.old.count }
        requires room { HasRoom 1 self.old }
        ensures becomes { Becomes self.old self.new (insert_at i (point_of p) (points_of self.old)) }
        ensures count { self.new.count ≡ self.old.count + 1 }
    {
        let col = &mut *self.col;
        column::open_gap(&mut *col, 2 * i, 2 * self.count, 2);
        column::put_record(&mut *col, i, Two(p.offset.0, p.speed_limit.0));
        self.count += 1;
    }

    // Puts two points in at i, p before q.
    pub fn insert_two(&mut self, i: usize, p: SpeedLimitPoint, q: SpeedLimitPoint)
        requires i_le_count { i ≤ self.old.count }
        requires room { HasRoom 2 self.old }
        ensures becomes { Becomes self.old self.new (insert_at i (point_of p) (insert_at i (point_of q) (points_of self.old))) }
        ensures count { self.new.count ≡ self.old.count + 2 }
    {
        let col = &mut *self.col;
        column::open_gap(&mut *col, 2 * i, 2 * self.count, 4);
        column::put_record(&mut *col, i, Two(p.offset.0, p.speed_limit.0));
        column::put_record(&mut *col, i + 1, Two(q.offset.0, q.speed_limit.0));
        self.count += 2;
    }

    // Takes point i out.
    #[tactic(auto, using(crate::proofs::PointColumn::fits_points))]
    pub fn remove_point(&mut self, i: usize)
        requires { i < self.old.count }
        ensures becomes { Becomes self.old self.new (remove_at i (points_of self.old)) }
        ensures count { self.new.count ≡ self.old.count - 1 }
    {
        column::close_gap(&mut *self.col, 2 * i, 2 * self.count, 2);
        self.count -= 1;
    }
}
