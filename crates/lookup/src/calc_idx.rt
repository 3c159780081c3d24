// calc_idx: the public search of a list on its own, for any column, count, offset and hint.
ghost use Rattle.std.specs.Prelude.{◌≡◌};
ghost use Rattle.lookup.specs.CalcIdx.{indexed, calc_idx};

use crate::coeff_list::CoeffList;
use crate::lin_search_hint::Dir;
use answer::Refusal;
use si::Length;

// Questions 1, 2, 10 and 11 in this order, and then the index of the record.
pub fn calc_idx(
    col: &[f64],
    n: usize,
    offset: Length,
    hint: usize,
    dir: Dir,
) -> Result<usize, Refusal>
    ensures { indexed result ≡ calc_idx dir offset.0 hint n col.now }
{
    CoeffList::judged(col, n, ieee::is_finite(offset.0))?.find(offset, hint, dir)
}
