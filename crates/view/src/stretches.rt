// The table of stretches: from, to, the speed posted, and what holds there.
ghost use Rattle.std.specs.Prelude.{◌≡◌, ◌<◌, ◌/◌, length};
ghost use Rattle.column.specs.Records.{record_at, two};

use crate::holders::{Held, held_by, piece_end};
use column::Two;
use show::{Rounded, Sink};
use si::{Length, Velocity};
use speed::laid::Laid;
use speed::speed_point::SpeedLimitPoint;

// The speed points of a path: an offset, and the speed posted from there on, of each in turn.
#[derive(Clone, Copy)]
pub struct Posted<'a>(pub &'a [f64]);

impl Posted<'_> {
    // How many points.
    pub fn len(self) -> usize
        ensures { result ≡ length self.entry.0.now / 2 }
    {
        self.0.len() / 2
    }

    // Point k.
    pub fn at(self, k: usize) -> SpeedLimitPoint
        ensures offset { result.offset.0 ≡ (record_at two self.entry.0.now k).0 }
        ensures speed { result.speed_limit.0 ≡ (record_at two self.entry.0.now k).1 }
    {
        let Two(offset, speed) = column::record_at::<Two>(self.0, k);
        SpeedLimitPoint {
            offset: Length(offset),
            speed_limit: Velocity(speed),
        }
    }

    // Where the stretch from point k on ends; that of the last point has no end.
    fn end(self, k: usize) -> f64
        requires { k < length self.0.now / 2 }
    {
        if k + 1 < self.len() {
            self.at(k + 1).offset.0
        } else {
            f64::INFINITY
        }
    }
}

// What holds a row that begins at x: a limit by its board or its tail, or the top speed; none only where the limit is not among those listed.
fn reason(out: Sink, held: Option<Held>, x: f64) {
    match held {
        Some(Held::Limit(l)) => {
            let part = if x < l.board { "" } else { "tail of the " };
            write!(out, "{part}limit of link {}\n", l.link);
        }
        Some(Held::Top) => write!(out, "top speed\n"),
        None => write!(out, "a limit not listed here\n"),
    }
}

// A row from x up to `to`, without what holds it; one without an end goes on.
fn row(out: Sink, x: f64, to: f64, v: f64) {
    if to < f64::INFINITY {
        write!(out, "{:10}{:10}{:8}  ", Rounded(x), Rounded(to), Rounded(v));
    } else {
        write!(out, "{:10}        on{:8}  ", Rounded(x), Rounded(v));
    }
}

// The rows of a stretch from x up to `to` with speed v, one for each piece that another limit, or its tail, holds; at most 10,000, and a word where
// there are more.
fn pieces(out: Sink, limits: &[Laid], from: f64, to: f64, v: f64, top: Velocity) {
    let mut x = from;
    for _ in 0..10000 {
        if !(x < to) {
            return;
        }
        let held = held_by(limits, x, v, Velocity(top.0));
        let next = piece_end(limits, x, to, v, held);
        row(out, x, next, v);
        reason(out, held, x);
        x = next;
    }
    if x < to {
        write!(out, "        .. and more\n");
    }
}

// The table of a path.
pub fn table(out: Sink, posted: Posted, limits: &[Laid], top: Velocity) {
    write!(out, "      from        to   speed  held by\n");
    for k in 0..posted.len() {
        let p = posted.at(k);
        pieces(
            out,
            limits,
            p.offset.0,
            posted.end(k),
            p.speed_limit.0,
            Velocity(top.0),
        );
    }
    write!(out, "{} speed points\n", posted.len());
}
