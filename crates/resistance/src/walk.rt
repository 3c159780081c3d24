// A walk of a strap: its resistance at many positions of a train, each a step further than the one before, all or nothing.
ghost use Rattle.std.specs.Prelude.{◌≡◌};
ghost use Rattle.resistance.specs.Strap.{res_told};
ghost use Rattle.resistance.specs.Walk as spec;

use crate::strap::{Strap, StrapForce};
use answer::{Question, Refusal};
use lookup::coeff_list::CoeffList;
use lookup::lin_search_hint::Dir;
use si::{Force, Length};
use train::train_state::{TrainState, state_finite};

// Front and back a step further.
fn further(s: TrainState, step: Length) -> TrainState
    ensures { result ≡ spec.further step.0 s }
{
    TrainState {
        offset: Length(s.offset.0 + step.0),
        offset_back: Length(s.offset_back.0 + step.0),
        ..s
    }
}

// The resistance at count positions, the first at state and each a step further: questions 1 and 2, then those of each position and
// after it 8 of the step to the next. A refused walk leaves the strap as it came.
pub fn walk(
    strap: Strap,
    col: &[f64],
    n: usize,
    state: TrainState,
    dir: Dir,
    step: Length,
    count: usize,
) -> Result<StrapForce, Refusal>
    ensures { res_told strap result ≡ spec.walk_of dir step.0 count strap state n col.now }
{
    let list = CoeffList::judged(col, n, state_finite(state) & ieee::is_finite(step.0))?;
    if count == 0 {
        return Ok(StrapForce {
            strap,
            res: Force(0.0),
        });
    }
    let mut t = strap;
    let mut s = state;
    'positions: for k in 1..count {
        let here = t.calc_res_known(&list, s, dir)?;
        t = here.strap;
        s = further(s, step);
        Question::Results.ask(ieee::is_finite(s.offset.0) & ieee::is_finite(s.offset_back.0))?;
    }
    t.calc_res_known(&list, s, dir)
}
