// A list searched alone: the values of one record, and what C is told of a result.
ghost use Rattle.std.specs.Prelude.{◌≡◌};
ghost use Rattle.lookup.specs.CalcIdx.{indexed};
ghost use Rattle.resistance.specs.Listed as spec;

use answer::{Answer, Question, Refusal};
use lookup::coeff_list::CoeffList;
use si::{Length, Ratio};
use train::train_state::{TrainState, state_finite};

// The answer of a search, with the index found; 0 for a refusal.
#[repr(C)]
#[derive(Clone, Copy)]
pub struct Searched {
    pub answer: Answer,
    pub idx: usize,
}

// An answer with a coefficient; 0 for a refusal.
#[repr(C)]
#[derive(Clone, Copy)]
pub struct CoeffAnswer {
    pub answer: Answer,
    pub res_coeff: Ratio,
}

// An answer with a net value; 0 for a refusal.
#[repr(C)]
#[derive(Clone, Copy)]
pub struct NetAnswer {
    pub answer: Answer,
    pub res_net: Length,
}

// The three differ in the record, its field and the value of a refusal, which one generic `From` would have to be told by a trait of its own.
impl From<Result<usize, Refusal>> for Searched {
    ghost from_gives = { λ found r. r ≡ spec.searched_of (indexed found) };

    fn from(found: Result<usize, Refusal>) -> Searched {
        match found {
            Ok(idx) => Searched {
                answer: Answer::from(Ok(())),
                idx,
            },
            Err(e) => Searched {
                answer: Answer::from(e),
                idx: 0,
            },
        }
    }
}

impl From<Result<Ratio, Refusal>> for CoeffAnswer {
    ghost from_gives = { λ found r. r ≡ spec.coeff_told found };

    fn from(found: Result<Ratio, Refusal>) -> CoeffAnswer {
        match found {
            Ok(res_coeff) => CoeffAnswer {
                answer: Answer::from(Ok(())),
                res_coeff,
            },
            Err(e) => CoeffAnswer {
                answer: Answer::from(e),
                res_coeff: Ratio(0.0),
            },
        }
    }
}

impl From<Result<Length, Refusal>> for NetAnswer {
    ghost from_gives = { λ found r. r ≡ spec.net_told found };

    fn from(found: Result<Length, Refusal>) -> NetAnswer {
        match found {
            Ok(res_net) => NetAnswer {
                answer: Answer::from(Ok(())),
                res_net,
            },
            Err(e) => NetAnswer {
                answer: Answer::from(e),
                res_net: Length(0.0),
            },
        }
    }
}

// The coefficient of record idx of a list: questions 1, 2 and 11.
pub fn res_coeff(idx: usize, col: &[f64], n: usize) -> Result<Ratio, Refusal>
    ensures { spec.coeff_told result ≡ spec.res_coeff_of idx n col.now }
{
    let list = CoeffList::judged(col, n, true)?;
    Question::Hint.ask(idx < list.len())?;
    Ok(list.at(idx).res_coeff)
}

// The value at the offset x of record idx of a list: questions 1, 2, 11 and 8. The position's numbers are asked, too.
pub fn res_net(
    idx: usize,
    x: Length,
    col: &[f64],
    n: usize,
    state: TrainState,
) -> Result<Length, Refusal>
    ensures { spec.net_told result ≡ spec.res_net_of idx x.0 state n col.now }
{
    let list = CoeffList::judged(col, n, state_finite(state))?;
    Question::Hint.ask(idx < list.len())?;
    let v = list.at(idx).calc_res_val(x);
    Question::Results.ask(ieee::is_finite(v.0))?;
    Ok(v)
}
