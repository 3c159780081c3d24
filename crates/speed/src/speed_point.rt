// Speed points to read: the first `count` pairs (offset, speed) of a column.
ghost use Rattle.std.specs.Prelude.{◌≡◌, ◌-◌, ◌*◌, ◌≤◌, ◌<◌, List, length};
ghost use Rattle.speed.specs.Points.{Point, point, point_of, offset_at, speed_at, repeats};
ghost use Rattle.speed.specs.Column.{points};
ghost use Rattle.speed.specs.Insert.{first_from, last_from};

use si::{Length, Velocity};
use std::marker::Model;

// From offset on, speed_limit holds.
#[derive(Clone, Copy)]
pub struct SpeedLimitPoint {
    pub offset: Length,
    pub speed_limit: Velocity,
}

impl SpeedLimitPoint {
    pub fn new(offset: Length, speed_limit: Velocity) -> SpeedLimitPoint
        ensures { point_of result ≡ point offset.0 speed_limit.0 }
    {
        SpeedLimitPoint {
            offset,
            speed_limit,
        }
    }
}

// The points that a column holds at its front.
#[derive(Drop)]
pub struct SpeedPoints<'a> {
    col: &'a [f64],
    count: usize,
}

impl<'a> Model for SpeedPoints<'a> {
    ghost Value = { List Point };

    ghost view = { λ p. points p.count p.col.now };

    ghost invariant = { λ p. 2 * p.count ≤ length p.col.now };
}

impl<'a> SpeedPoints<'a> {
    pub fn new(col: &'a [f64], count: usize) -> SpeedPoints<'a>
        requires { 2 * count ≤ length col.now }
        ensures are { result ≡ points count col.now }
        ensures count { length result ≡ count }
    {
        SpeedPoints { col, count }
    }

    // How many points.
    pub fn len(&self) -> usize
        ensures { result ≡ length self.now }
    {
        self.count
    }

    // The offset of point i.
    #[tactic(auto, using(crate::proofs::PointColumn::count_is))]
    pub fn offset_at(&self, i: usize) -> Length
        requires { i < length self.now }
        ensures { result.0 ≡ offset_at self.now i }
    {
        let col = self.col;
        Length(col[2 * i])
    }

    // The speed of point i.
    #[tactic(auto, using(crate::proofs::PointColumn::count_is))]
    pub fn speed_at(&self, i: usize) -> Velocity
        requires { i < length self.now }
        ensures { result.0 ≡ speed_at self.now i }
    {
        let col = self.col;
        Velocity(col[2 * i + 1])
    }

    // Whether there is a point before i, and its speed equals w.
    pub fn repeats_before(&self, i: usize, w: Velocity) -> bool
        requires { i ≤ length self.now }
        ensures { result ≡ repeats i w.0 self.now }
    {
        if i == 0 {
            return false;
        }
        self.speed_at(i - 1).0 == w.0
    }

    // The first point at or after s, or the count where there is none.
    pub fn first_from(&self, s: Length) -> usize
        ensures { result ≡ first_from s.0 self.now }
    {
        for i in 0..self.len() {
            if !(self.offset_at(i).0 < s.0) {
                return i;
            }
        }
        self.len()
    }

    // The last point at or before e, or 0 where there is none.
    pub fn last_from(&self, e: Length) -> usize
        ensures { result ≡ last_from e.0 (length self.now - 1) self.now }
    {
        for j in (1..self.len()).rev() {
            if !(self.offset_at(j).0 > e.0) {
                return j;
            }
        }
        0
    }
}
