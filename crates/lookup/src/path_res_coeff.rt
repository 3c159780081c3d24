// A grade or curve record: offset, coefficient, and the net value at the offset.
ghost use Rattle.std.specs.Prelude.{◌≡◌};
ghost use Rattle.column.specs.Records.{record_at, put_record};
ghost use Rattle.lookup.specs.Coeff.{res_coeff_record, triple, res_val, closes_well, coeffs_finite};

use column::Three;
use si::{Length, Ratio};

#[derive(Clone, Copy)]
pub struct PathResCoeff {
    pub offset: Length,
    pub res_coeff: Ratio,
    pub res_net: Length,
}

impl PathResCoeff {
    // The value at an offset: net + coefficient * (offset - the record's own).
    pub fn calc_res_val(self, offset: Length) -> Length
        ensures { result.0 ≡ res_val self offset.0 }
    {
        Length(self.res_net.0 + self.res_coeff.0 * (offset.0 - self.offset.0))
    }
}

// Three entries of a column as a record.
impl From<Three> for PathResCoeff {
    ghost from_gives = { λ t g. g ≡ res_coeff_record t.0 t.1 t.2 };

    fn from(t: Three) -> PathResCoeff {
        PathResCoeff {
            offset: Length(t.0),
            res_coeff: Ratio(t.1),
            res_net: Length(t.2),
        }
    }
}

// Record i of a column; zeros for what lies past its end.
pub fn coeff_at(col: &[f64], i: usize) -> PathResCoeff
    ensures { result ≡ record_at triple col.now i }
{
    PathResCoeff::from(column::record_at::<Three>(col, i))
}

// Stores record i.
pub fn put_coeff(col: &mut [f64], i: usize, g: PathResCoeff)
    ensures { col.new ≡ put_record triple col.old i g }
{
    column::put_record(&mut *col, i, Three(g.offset.0, g.res_coeff.0, g.res_net.0));
}

// Whether o is finite, or +infinity where the list may close so.
fn closes_well(o: f64, closes: bool) -> bool
    ensures { result ≡ closes_well closes o }
{
    ieee::is_finite(o) || (closes && o == f64::INFINITY)
}

// Question 1 of n records: every number is finite, the last offset excepted where the list may close at +infinity. It asks any count of any
// column, so it takes both and no list; `closes` is a path's own `is_finished`, so it stays a bool.
pub fn coeffs_finite(col: &[f64], n: usize, closes: bool) -> bool
    ensures { result ≡ coeffs_finite closes n col.now }
{
    if n == 0 {
        return true;
    }
    let k = (n - 1).saturating_mul(3);
    let before = column::all_finite(col, k);
    if col.len() <= k {
        return before;
    }
    let last = closes_well(col[k], closes);
    let rest = ieee::is_finite(column::get(col, k + 1)) & ieee::is_finite(column::get(col, k + 2));
    before & (last & rest)
}
