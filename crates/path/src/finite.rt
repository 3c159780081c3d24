// Question 1 of a path and of a train: their numbers are finite.
ghost use Rattle.std.specs.Prelude.{◌≡◌, ◌*◌, ◌<◌, take};
ghost use Rattle.ieee.specs.Number.{all_finite};
ghost use Rattle.path.specs.Records.{lent};
ghost use Rattle.path.specs.Sound.{path_finite, train_finite};

use crate::columns::PathColumns;
use crate::path_tpc::PathTpc;
use link::train_params::TrainParams;
use lookup::path_res_coeff::coeffs_finite;

// Whether every entry of n records, w entries each, is finite, as far as the column has them. Any count: question 2 has not judged it yet.
fn records_finite(col: &[f64], n: usize, w: usize) -> bool
    requires w_nonzero { 0 < w }
    requires w_bound { w < 4 }
    ensures { result ≡ all_finite (take (w * n) col.now) }
{
    if col.len() <= n {
        return column::all_finite(col, col.len());
    }
    column::all_finite(col, w * n)
}

// Question 1 of a path.
pub fn path_finite(p: PathTpc, cols: &PathColumns) -> bool
    ensures { result ≡ path_finite p (lent cols.now) }
{
    let links = column::all_finite(cols.offsets, p.link_count);
    let slopes = coeffs_finite(cols.grades, p.grade_count, p.is_finished);
    let bends = coeffs_finite(cols.curves, p.curve_count, p.is_finished);
    let limits = records_finite(cols.speeds, p.speed_count, 2);
    let drawn = records_finite(cols.powers, p.power_count, 3);
    links & (slopes & (bends & (limits & drawn)))
}

// Question 1 of a train: its numbers are finite, its length above 0, its top speed not below 0.
pub fn train_finite(t: TrainParams) -> bool
    ensures { result ≡ train_finite t }
{
    let finite = ieee::is_finite(t.length.0)
        & (ieee::is_finite(t.speed_max.0)
            & (ieee::is_finite(t.towed_mass_static.0)
                & (ieee::is_finite(t.mass_per_brake.0)
                    & (ieee::is_finite(t.curve_coeff_0.0)
                        & (ieee::is_finite(t.curve_coeff_1.0)
                            & ieee::is_finite(t.curve_coeff_2.0))))));
    finite & ((0.0 < t.length.0) & !(t.speed_max.0 < 0.0))
}
