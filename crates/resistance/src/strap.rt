// `Strap`: the train as a strap from front to back.
ghost use Rattle.std.specs.Prelude.{◌≡◌, ◌<◌, length};
ghost use Rattle.resistance.specs.Listed.{coeff_told, net_told, res_coeff_of, res_net_of};
ghost use Rattle.resistance.specs.Strap as spec;

use crate::listed::{res_coeff, res_net};
use answer::{Answer, Question, Refusal};
use lookup::coeff_list::CoeffList;
use lookup::lin_search_hint::Dir;
use si::{Force, Length, Ratio};
use train::train_state::{TrainState, state_finite};

// The indices of the train's front and back in a list.
#[repr(C)]
#[derive(Clone, Copy, Debug, PartialEq, Eq)]
pub struct Strap {
    pub idx_front: usize,
    pub idx_back: usize,
}

// A strap, and the force on the train there.
#[derive(Clone, Copy)]
pub struct StrapForce {
    pub strap: Strap,
    pub res: Force,
}

// What the searches of a call leave: the indices, and whether one record serves both ends.
#[derive(Clone, Copy, Debug, PartialEq, Eq)]
pub struct Ends {
    pub strap: Strap,
    pub one: bool,
}

// An answer with the record of a strap, as C reads it.
#[repr(C)]
#[derive(Clone, Copy)]
pub struct StrapAnswer {
    pub answer: Answer,
    pub strap: Strap,
}

// An answer with the record of a strap and a force, as C reads it.
#[repr(C)]
#[derive(Clone, Copy)]
pub struct StrapRes {
    pub answer: Answer,
    pub strap: Strap,
    pub res: Force,
}

// What C is told of a call that hands back a strap: a refused one the strap that came.
impl StrapAnswer {
    pub fn told(before: Strap, r: Result<Strap, Refusal>) -> StrapAnswer
        ensures { result ≡ spec.strap_told before r }
    {
        match r {
            Ok(strap) => StrapAnswer {
                answer: Answer::from(Ok(())),
                strap,
            },
            Err(e) => StrapAnswer {
                answer: Answer::from(e),
                strap: before,
            },
        }
    }
}

// What C is told of a call that hands back a strap and a force: a refused one the strap that came, and 0.
impl StrapRes {
    pub fn told(before: Strap, r: Result<StrapForce, Refusal>) -> StrapRes
        ensures { result ≡ spec.res_told before r }
    {
        match r {
            Ok(there) => StrapRes {
                answer: Answer::from(Ok(())),
                strap: there.strap,
                res: there.res,
            },
            Err(e) => StrapRes {
                answer: Answer::from(e),
                strap: before,
                res: Force(0.0),
            },
        }
    }
}

impl Ends {
    // The two indices, and whether one record serves both ends.
    fn at(idx_front: usize, idx_back: usize, one: bool) -> Ends
        ensures { result ≡ record { strap = spec.strap_of idx_front idx_back; one = one } }
    {
        Ends {
            strap: Strap {
                idx_front,
                idx_back,
            },
            one,
        }
    }
}

// The end at x from index i, and then the other at y from k, unless the first is found at k; with `both` in any case, and the two are compared after it.
fn moved_ends(
    x: Length,
    i: usize,
    y: Length,
    k: usize,
    both: bool,
    list: &CoeffList,
    dir: Dir,
) -> Result<Ends, Refusal>
    ensures { spec.moved_told (spec.strap_of i k) result ≡ spec.moved_ends dir both x.0 i y.0 k list.now }
{
    let first = list.find(x, i, dir)?;
    if !both & (first == k) {
        return Ok(Ends::at(first, k, true));
    }
    let second = list.find(y, k, dir)?;
    Ok(Ends::at(first, second, both & (first == second)))
}

impl Strap {
    // The two indices after the searches of a direction.
    pub fn moved_by(self, list: &CoeffList, state: TrainState, dir: Dir) -> Result<Ends, Refusal>
        ensures { spec.moved_told self result ≡ spec.moved dir self state list.now }
    {
        let front = self.idx_front;
        let back = self.idx_back;
        let x = state.offset;
        let y = state.offset_back;
        match dir {
            Dir::Fwd => moved_ends(x, front, y, back, false, list, Dir::Fwd),
            Dir::Unk => moved_ends(x, front, y, back, true, list, Dir::Unk),
            Dir::Bwd => {
                let m = moved_ends(y, back, x, front, false, list, Dir::Bwd)?;
                Ok(Ends::at(m.strap.idx_back, m.strap.idx_front, m.one))
            }
        }
    }

    // The strap's coefficient: that of the one record, or (front value - back value) / length.
    pub fn calc_res_strap(self, one: bool, list: &CoeffList, state: TrainState) -> Ratio
        requires idx_front_bound { self.idx_front < length list.now }
        requires idx_back_bound { self.idx_back < length list.now }
        ensures { result.0 ≡ spec.calc_res_strap one self state list.now }
    {
        let front = list.at(self.idx_front);
        if one {
            return front.res_coeff;
        }
        let front_value = front.calc_res_val(state.offset);
        let back = list.at(self.idx_back);
        let back_value = back.calc_res_val(state.offset_back);
        let length = state.length.0;
        Ratio((front_value.0 - back_value.0) / length)
    }

    // A new strap on a list that is known to be sound.
    pub fn new_known(list: &CoeffList, state: TrainState) -> Result<Strap, Refusal>
        ensures { spec.strap_told (spec.strap_of 0 0) result ≡ spec.new_known state list.now }
    {
        if list.len() <= 1 {
            return Ok(Strap {
                idx_front: 0,
                idx_back: 0,
            });
        }
        let x = state.offset.0 - state.length.0;
        Question::Results.ask(ieee::is_finite(x))?;
        let idx_back = list.find(Length(x), 0, Dir::Fwd)?;
        let idx_front = list.find(state.offset, idx_back, Dir::Fwd)?;
        Ok(Strap {
            idx_front,
            idx_back,
        })
    }

    // A new strap: questions 1, 2, 8 and 10.
    pub fn new(col: &[f64], n: usize, state: TrainState) -> Result<Strap, Refusal>
        ensures { spec.strap_told (spec.strap_of 0 0) result ≡ spec.new_of state n col.now }
    {
        let list = CoeffList::judged(col, n, state_finite(state))?;
        Strap::new_known(&list, state)
    }

    // The resistance of a strap on a list that is known to be sound.
    pub fn calc_res_known(
        self,
        list: &CoeffList,
        state: TrainState,
        dir: Dir,
    ) -> Result<StrapForce, Refusal>
        ensures { spec.res_told self result ≡ spec.calc_res_known dir self state list.now }
    {
        let m = self.moved_by(list, state, dir)?;
        let strap = m.strap;
        let coeff = strap.calc_res_strap(m.one, list, state);
        let res = coeff.0 * state.weight_static.0;
        Question::Results.ask(ieee::is_finite(res))?;
        Ok(StrapForce {
            strap,
            res: Force(res),
        })
    }

    // The resistance of a strap: questions 1, 2, then each search's 10 and 11, then 8.
    pub fn calc_res(
        self,
        col: &[f64],
        n: usize,
        state: TrainState,
        dir: Dir,
    ) -> Result<StrapForce, Refusal>
        ensures { spec.res_told self result ≡ spec.calc_res_of dir self state n col.now }
    {
        let list = CoeffList::judged(col, n, state_finite(state))?;
        self.calc_res_known(&list, state, dir)
    }

    // The coefficient of the front's record.
    pub fn res_coeff_front(self, col: &[f64], n: usize) -> Result<Ratio, Refusal>
        ensures { coeff_told result ≡ res_coeff_of self.idx_front n col.now }
    {
        res_coeff(self.idx_front, col, n)
    }

    // The coefficient of the back's record.
    pub fn res_coeff_back(self, col: &[f64], n: usize) -> Result<Ratio, Refusal>
        ensures { coeff_told result ≡ res_coeff_of self.idx_back n col.now }
    {
        res_coeff(self.idx_back, col, n)
    }

    // The value at the front, by the front's record.
    pub fn res_net_front(self, col: &[f64], n: usize, state: TrainState) -> Result<Length, Refusal>
        ensures { net_told result ≡ res_net_of self.idx_front state.offset.0 state n col.now }
    {
        res_net(self.idx_front, state.offset, col, n, state)
    }

    // The value at the back, by the back's record.
    pub fn res_net_back(self, col: &[f64], n: usize, state: TrainState) -> Result<Length, Refusal>
        ensures { net_told result ≡ res_net_of self.idx_back state.offset_back.0 state n col.now }
    {
        res_net(self.idx_back, state.offset_back, col, n, state)
    }

    // The front's index.
    pub fn path_tpc_idx_front(self) -> usize
        ensures { result ≡ self.idx_front }
    {
        self.idx_front
    }

    // The strap once sub records at the front are dropped: question 11.
    pub fn fix_cache(self, sub: usize) -> Result<Strap, Refusal>
        ensures { spec.strap_told self result ≡ spec.fix_cache self sub }
    {
        Question::Hint.ask(sub <= self.idx_back && sub <= self.idx_front)?;
        Ok(Strap {
            idx_front: self.idx_front - sub,
            idx_back: self.idx_back - sub,
        })
    }
}
