// Strap on a list of records, and its walk over many positions.
use crate::answers::Reply;
use crate::columns::Columns;
use crate::fields::{Fault, count, dir, length, state};
use lookup::lin_search_hint::Dir;
use resistance::strap::Strap;
use resistance::walk::walk;
use si::Length;
use std::fmt;
use train::train_state::TrainState;

// The strap INDEX INDEX.
fn strap_at(front: &[u8], back: &[u8]) -> Result<Strap, Fault> {
    Ok(Strap {
        idx_front: count(front)?,
        idx_back: count(back)?,
    })
}

// A list with a position on it.
#[derive(Clone, Copy)]
struct At<'a> {
    col: &'a [f64],
    n: usize,
    state: TrainState,
}

impl<'a> At<'a> {
    // LIST RECORDS TRAIN FRONT BACK
    fn read(columns: &'a Columns, args: &[&[u8]; 5]) -> Result<At<'a>, Fault> {
        let [list, records, train, front, back] = args;
        let (col, n) = columns.list(list, records)?;
        Ok(At {
            col,
            n,
            state: state(columns, train, front, back)?,
        })
    }
}

// A walk. It may be long, so it is made as it is printed, with its name before it.
#[derive(Clone, Copy)]
pub struct Walk<'a> {
    at: At<'a>,
    strap: Strap,
    to: Dir,
    step: Length,
    positions: usize,
}

impl fmt::Display for Walk<'_> {
    fn fmt<W: fmt::Write>(&self, f: &mut fmt::Formatter<W>) -> fmt::Result {
        let t = self.strap;
        let on = self.at;
        let walked = walk(
            t,
            on.col,
            on.n,
            on.state,
            self.to,
            self.step,
            self.positions,
        );
        write!(f, "{}", Reply::strap_force(t, walked))
    }
}

// walk LIST RECORDS TRAIN FRONT BACK INDEX INDEX DIRECTION STEP POSITIONS
pub fn walk_of<'a>(columns: &'a Columns, args: &[&[u8]]) -> Result<Walk<'a>, Fault> {
    let [
        list,
        records,
        train,
        front,
        back,
        idx_front,
        idx_back,
        to,
        step,
        positions,
    ] = args
    else {
        return Err(Fault::Unreadable);
    };
    Ok(Walk {
        at: At::read(columns, &[*list, *records, *train, *front, *back])?,
        strap: strap_at(idx_front, idx_back)?,
        to: dir(to)?,
        step: length(step)?,
        positions: count(positions)?,
    })
}

// Strap::new LIST RECORDS TRAIN FRONT BACK
// Strap::calc_res LIST RECORDS TRAIN FRONT BACK INDEX INDEX DIRECTION
// Strap::res_net_front and Strap::res_net_back LIST RECORDS TRAIN FRONT BACK INDEX INDEX
fn answer_at(at: At, call: &[u8], args: &[&[u8]]) -> Result<Reply, Fault> {
    match (call, args) {
        (b"Strap::new", []) => {
            let before = Strap {
                idx_front: 0,
                idx_back: 0,
            };
            let made = Strap::new(at.col, at.n, at.state);
            Ok(Reply::strap(before, made))
        }
        (b"Strap::calc_res", [front, back, to]) => {
            let t = strap_at(front, back)?;
            let there = t.calc_res(at.col, at.n, at.state, dir(to)?);
            Ok(Reply::strap_force(t, there))
        }
        (b"Strap::res_net_front", [front, back]) => {
            let t = strap_at(front, back)?;
            let r = t.res_net_front(at.col, at.n, at.state);
            Ok(Reply::from(r.map(|x| x.0)))
        }
        (b"Strap::res_net_back", [front, back]) => {
            let t = strap_at(front, back)?;
            let r = t.res_net_back(at.col, at.n, at.state);
            Ok(Reply::from(r.map(|x| x.0)))
        }
        _ => Err(Fault::Unreadable),
    }
}

// A call with LIST RECORDS TRAIN FRONT BACK before its other arguments.
fn answer_with(columns: &Columns, call: &[u8], args: &[&[u8]]) -> Result<Reply, Fault> {
    let [list, records, train, front, back, args @ ..] = args else {
        return Err(Fault::Unreadable);
    };
    let at = At::read(columns, &[*list, *records, *train, *front, *back])?;
    answer_at(at, call, args)
}

// Strap::res_coeff_front and Strap::res_coeff_back LIST RECORDS INDEX INDEX
// Strap::fix_cache INDEX INDEX SUB
pub fn answer(columns: &Columns, call: &[u8], args: &[&[u8]]) -> Result<Reply, Fault> {
    match (call, args) {
        (b"Strap::res_coeff_front", [list, records, front, back]) => {
            let (col, n) = columns.list(list, records)?;
            let r = strap_at(front, back)?.res_coeff_front(col, n);
            Ok(Reply::from(r.map(|x| x.0)))
        }
        (b"Strap::res_coeff_back", [list, records, front, back]) => {
            let (col, n) = columns.list(list, records)?;
            let r = strap_at(front, back)?.res_coeff_back(col, n);
            Ok(Reply::from(r.map(|x| x.0)))
        }
        (b"Strap::fix_cache", [front, back, sub]) => {
            let t = strap_at(front, back)?;
            Ok(Reply::strap(t, t.fix_cache(count(sub)?)))
        }
        _ => answer_with(columns, call, args),
    }
}
