// `Point`: the train as a point in its middle.
ghost use Rattle.std.specs.Prelude.{◌≡◌};
ghost use Rattle.lookup.specs.CalcIdx.{indexed};
ghost use Rattle.resistance.specs.Listed.{searched_of, coeff_told, net_told, res_coeff_of, res_net_of};
ghost use Rattle.resistance.specs.Point as spec;

use crate::listed::{res_coeff, res_net};
use answer::{Answer, Question, Refusal};
use lookup::coeff_list::CoeffList;
use lookup::lin_search_hint::Dir;
use si::{Force, Length, Ratio};
use train::train_state::{TrainState, state_finite};

// The index of the train's middle in a list.
#[repr(C)]
#[derive(Clone, Copy, Debug, PartialEq, Eq)]
pub struct Point {
    pub idx: usize,
}

// A point, and the force on the train there.
#[derive(Clone, Copy)]
pub struct PointForce {
    pub point: Point,
    pub res: Force,
}

// An answer with the record of a point, as C reads it.
#[repr(C)]
#[derive(Clone, Copy)]
pub struct PointAnswer {
    pub answer: Answer,
    pub point: Point,
}

// An answer with the record of a point and a force, as C reads it.
#[repr(C)]
#[derive(Clone, Copy)]
pub struct PointRes {
    pub answer: Answer,
    pub point: Point,
    pub res: Force,
}

// What C is told of a call that hands back a point: a refused one the point that came.
impl PointAnswer {
    pub fn told(before: Point, r: Result<Point, Refusal>) -> PointAnswer
        ensures { result ≡ spec.point_told before r }
    {
        match r {
            Ok(point) => PointAnswer {
                answer: Answer::from(Ok(())),
                point,
            },
            Err(e) => PointAnswer {
                answer: Answer::from(e),
                point: before,
            },
        }
    }
}

// What C is told of a call that hands back a point and a force: a refused one the point that came, and 0.
impl PointRes {
    pub fn told(before: Point, r: Result<PointForce, Refusal>) -> PointRes
        ensures { result ≡ spec.res_told before r }
    {
        match r {
            Ok(there) => PointRes {
                answer: Answer::from(Ok(())),
                point: there.point,
                res: there.res,
            },
            Err(e) => PointRes {
                answer: Answer::from(e),
                point: before,
                res: Force(0.0),
            },
        }
    }
}

// The search of the train's middle: question 8 of where it is, then 10 and 11.
fn search_middle(
    list: &CoeffList,
    state: TrainState,
    hint: usize,
    dir: Dir,
) -> Result<usize, Refusal>
    ensures { searched_of (indexed result) ≡ spec.search_middle dir hint state list.now }
{
    let middle = state.offset.0 - state.length.0 * 0.5;
    Question::Results.ask(ieee::is_finite(middle))?;
    list.find(Length(middle), hint, dir)
}

// `new` and `calc_res` read as `Strap`'s do, and are written twice on purpose: each hands back a record of its own, and a train as a point is
// to be taken out one day, which then touches this file alone.
impl Point {
    // A new point on a list that is known to be sound.
    pub fn new_known(list: &CoeffList, state: TrainState) -> Result<Point, Refusal>
        ensures { spec.point_told (spec.point_of 0) result ≡ spec.new_known state list.now }
    {
        let idx = search_middle(list, state, 0, Dir::Fwd)?;
        Ok(Point { idx })
    }

    // A new point: questions 1, 2, 8, 10 and 11.
    pub fn new(col: &[f64], n: usize, state: TrainState) -> Result<Point, Refusal>
        ensures { spec.point_told (spec.point_of 0) result ≡ spec.new_of state n col.now }
    {
        let list = CoeffList::judged(col, n, state_finite(state))?;
        Point::new_known(&list, state)
    }

    // The resistance of a point on a list that is known to be sound.
    pub fn calc_res_known(
        self,
        list: &CoeffList,
        state: TrainState,
        dir: Dir,
    ) -> Result<PointForce, Refusal>
        ensures { spec.res_told self result ≡ spec.calc_res_known dir self state list.now }
    {
        let idx = search_middle(list, state, self.idx, dir)?;
        let res = list.at(idx).res_coeff.0 * state.weight_static.0;
        Question::Results.ask(ieee::is_finite(res))?;
        Ok(PointForce {
            point: Point { idx },
            res: Force(res),
        })
    }

    // The resistance of a point: questions 1, 2, 8, 10, 11 and 8.
    pub fn calc_res(
        self,
        col: &[f64],
        n: usize,
        state: TrainState,
        dir: Dir,
    ) -> Result<PointForce, Refusal>
        ensures { spec.res_told self result ≡ spec.calc_res_of dir self state n col.now }
    {
        let list = CoeffList::judged(col, n, state_finite(state))?;
        self.calc_res_known(&list, state, dir)
    }

    // The coefficient of the point's record.
    pub fn res_coeff_front(self, col: &[f64], n: usize) -> Result<Ratio, Refusal>
        ensures { coeff_told result ≡ res_coeff_of self.idx n col.now }
    {
        res_coeff(self.idx, col, n)
    }

    // The value at the train's front, by the point's record.
    pub fn res_net_front(self, col: &[f64], n: usize, state: TrainState) -> Result<Length, Refusal>
        ensures { net_told result ≡ res_net_of self.idx state.offset.0 state n col.now }
    {
        res_net(self.idx, state.offset, col, n, state)
    }

    // The point's index.
    pub fn path_tpc_idx_front(self) -> usize
        ensures { result ≡ self.idx }
    {
        self.idx
    }

    // The point once sub records at the front are dropped: question 11.
    pub fn fix_cache(self, sub: usize) -> Result<Point, Refusal>
        ensures { spec.point_told self result ≡ spec.fix_cache self sub }
    {
        Question::Hint.ask(sub <= self.idx)?;
        Ok(Point {
            idx: self.idx - sub,
        })
    }
}
