// Answers as they are printed.
use crate::columns::Number;
use crate::paths::Trimmed;
use crate::straps::Walk;
use crate::tables::Judged;
use answer::Refusal;
use resistance::point::{Point, PointForce};
use resistance::strap::{Strap, StrapForce};
use show::Whole;
use std::fmt;
use train::train_state::TrainState;

// Done, or the number of the refusal, and its place where it is not 0.
#[derive(Clone, Copy)]
pub struct Told(pub Option<Refusal>);

impl fmt::Display for Told {
    fn fmt<W: fmt::Write>(&self, f: &mut fmt::Formatter<W>) -> fmt::Result {
        let Some(e) = self.0 else {
            return write!(f, " done");
        };
        write!(f, " refused with {}", e.question.number())?;
        match e.place {
            0 => Ok(()),
            place => write!(f, " at {place}"),
        }
    }
}

// Every entry of a column, each behind a blank.
#[derive(Clone, Copy)]
pub struct Entries<'a, T>(pub &'a [T]);

impl<T: Number> fmt::Display for Entries<'_, T> {
    fn fmt<W: fmt::Write>(&self, f: &mut fmt::Formatter<W>) -> fmt::Result {
        for x in self.0 {
            write!(f, " {}", x.form())?;
        }
        Ok(())
    }
}

// The refusal of a call, if it is refused, the indices that go with the answer, and a number, which is printed in thousandths.
#[derive(Clone, Copy, Default)]
pub struct Reply {
    pub refusal: Option<Refusal>,
    pub front: Option<usize>,
    pub back: Option<usize>,
    pub value: Option<f64>,
}

impl fmt::Display for Reply {
    fn fmt<W: fmt::Write>(&self, f: &mut fmt::Formatter<W>) -> fmt::Result {
        write!(f, "{}", Told(self.refusal))?;
        if let Some(i) = self.front {
            write!(f, " {i}")?;
        }
        if let Some(i) = self.back {
            write!(f, " {i}")?;
        }
        match self.value {
            Some(x) => write!(f, " {}", Whole(x * 1000.0)),
            None => Ok(()),
        }
    }
}

impl Reply {
    // Done or refused, with nothing beside it.
    fn of<T: Copy>(r: Result<T, Refusal>) -> Reply {
        Reply {
            refusal: r.err(),
            ..Reply::default()
        }
    }

    fn with_value(mut self, x: f64) -> Reply {
        self.value = Some(x);
        self
    }

    fn with_front(mut self, i: usize) -> Reply {
        self.front = Some(i);
        self
    }

    fn with_back(mut self, i: usize) -> Reply {
        self.back = Some(i);
        self
    }
}

// A refused call answers with what it was given; an index found and a number are 0.
impl From<Result<usize, Refusal>> for Reply {
    fn from(r: Result<usize, Refusal>) -> Reply {
        Reply::of(r).with_front(r.unwrap_or(0))
    }
}

impl From<Result<f64, Refusal>> for Reply {
    fn from(r: Result<f64, Refusal>) -> Reply {
        Reply::of(r).with_value(r.unwrap_or(0.0))
    }
}

impl Reply {
    pub fn point(before: Point, r: Result<Point, Refusal>) -> Reply {
        Reply::of(r).with_front(r.unwrap_or(before).path_tpc_idx_front())
    }

    pub fn strap(before: Strap, r: Result<Strap, Refusal>) -> Reply {
        let t = r.unwrap_or(before);
        Reply::of(r)
            .with_front(t.path_tpc_idx_front())
            .with_back(t.idx_back)
    }

    pub fn point_force(before: Point, r: Result<PointForce, Refusal>) -> Reply {
        Reply::point(before, r.map(|there| there.point)).with_value(r.map_or(
            0.0,
            |there| there.res.0,
        ))
    }

    pub fn strap_force(before: Strap, r: Result<StrapForce, Refusal>) -> Reply {
        Reply::strap(before, r.map(|there| there.strap)).with_value(r.map_or(
            0.0,
            |there| there.res.0,
        ))
    }

    pub fn state(before: TrainState, r: Result<TrainState, Refusal>) -> Reply {
        let s = r.unwrap_or(before);
        Reply::of(r)
            .with_front(s.link_idx_front as usize)
            .with_back(s.link_idx_back as usize)
            .with_value(s.offset_in_link.0)
    }
}

// What a row prints behind its name.
#[derive(Drop)]
pub enum Shown<'a> {
    Reply(Reply),
    Trimmed(Trimmed),
    Asked(Judged),
    Edited([Judged; 3]),
    Walk(Walk<'a>),
}

impl fmt::Display for Shown<'_> {
    fn fmt<W: fmt::Write>(&self, f: &mut fmt::Formatter<W>) -> fmt::Result {
        match self {
            Shown::Reply(r) => write!(f, "{r}"),
            Shown::Trimmed(t) => write!(f, "{t}"),
            Shown::Asked(j) => write!(f, ":{j}"),
            Shown::Walk(w) => write!(f, "{w}"),
            Shown::Edited([i, j, k]) => write!(f, ":{i}{j}{k}"),
        }
    }
}
