// What the original Rust posts behind a drop, beside what is posted here: its own run of the same calls is followed in a column of its speed points.
use original::run::{begin, drop_before, lay, posted_by_original};
use route::kinds::Call;
use show::{Rounded, Sink};
use si::{Length, Velocity};
use speed::laid::Laid;
use view::holders::lowest_below;

// How the original's run stands: it goes on with so many speed points, stopped at the last drop or at an earlier one, or is not followed for want of room.
#[derive(Clone, Copy)]
pub enum Course {
    GoesOn(usize),
    Stopped,
    StoppedBefore,
    NotFollowed,
}

// Its run, in a column of its speed points.
#[derive(Drop)]
pub struct Original<'a> {
    pub column: &'a mut [f64],
    pub course: Course,
}

// What a call that is done leaves: the path's beginning and the train's top speed, whether links were dropped, and whether all limits have a record.
#[derive(Clone, Copy)]
pub struct Done {
    pub begin: Length,
    pub top: Velocity,
    pub drops: bool,
    pub fits: bool,
}

// A course that goes on with so many points; without points it is the one given.
fn with_points(points: usize, none: Course) -> Course {
    if 0 < points {
        Course::GoesOn(points)
    } else {
        none
    }
}

impl Course {
    // Behind such a call.
    fn behind(self, call: Call, done: Done, laid: &[Laid], column: &mut [f64]) -> Course {
        let x = done.begin;
        if call == Call::New {
            return with_points(begin(column, x, done.top), Course::NotFollowed);
        }
        match self {
            Course::GoesOn(n) => gone_on(n, call, done, laid, column),
            Course::Stopped => Course::StoppedBefore,
            other => other,
        }
    }
}

// The same for one that went on with n points, behind another call than `new`.
fn gone_on(n: usize, call: Call, done: Done, laid: &[Laid], column: &mut [f64]) -> Course {
    let x = done.begin;
    match call {
        Call::Clear if done.drops => with_points(drop_before(column, n, x), Course::Stopped),
        Call::Extend if done.fits => with_points(lay(column, n, laid), Course::NotFollowed),
        Call::Recalculate if done.fits => {
            let n = begin(&mut *column, x, done.top);
            with_points(lay(column, n, laid), Course::NotFollowed)
        }
        Call::Extend | Call::Recalculate => Course::NotFollowed,
        _ => Course::GoesOn(n),
    }
}

// The limit that the original loses at x, where it posts v: a limit that covers x and is smaller.
fn lost(out: Sink, x: Length, v: f64, limits: &[Laid]) {
    if let Some(l) = lowest_below(limits, x.0, v) {
        write!(
            out,
            ": it loses a limit, {} of link {}",
            Rounded(l.value),
            l.link
        );
    }
    write!(out, "\n");
}

impl Original<'_> {
    // Behind a call that is done, and laid these limits.
    pub fn follow(&mut self, call: Call, done: Done, laid: &[Laid]) {
        let course = self.course;
        self.course = course.behind(call, done, laid, &mut *self.column);
    }

    // Both at the path's new beginning x, where `here` is posted, with the limits that were laid.
    pub fn side_by_side(&self, out: Sink, x: Length, here: Velocity, limits: &[Laid]) {
        let at = Rounded(x.0);
        let posted = Rounded(here.0);
        write!(
            out,
            "  here:          {posted} posted at {at}\n  original Rust: "
        );
        match self.course {
            Course::GoesOn(n) => {
                let v = posted_by_original(&*self.column, n, Length(x.0)).0;
                write!(out, "{} posted at {at}", Rounded(v));
                lost(out, x, v, limits);
            }
            Course::Stopped => write!(out, "stops here, no speed point is at or past {at}\n"),
            Course::StoppedBefore => write!(out, "stopped at an earlier drop\n"),
            Course::NotFollowed => write!(
                out,
                "not followed, its speed points or the limits laid are more than there is room for\n"
            ),
        }
    }
}
