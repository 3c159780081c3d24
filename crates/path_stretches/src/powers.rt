// Power limits of a link, laid behind those of a path.
ghost use Rattle.std.specs.Prelude.{◌≡◌, ◌++◌, map, ◌+◌, ◌*◌, ◌≤◌, ◌<◌, ◌^◌};
ghost use Rattle.std.proofs.Math.ListN as list;
ghost use Rattle.link.specs.Lists.{every, up_from};
ghost use Rattle.link.specs.Table.{power_at, power_of};
ghost use Rattle.path.specs.Records.{power_limits};
ghost use Rattle.path_stretches.specs.Powers as spec;

use column::Three;
use link::cat_power::{CatPowerLimit, power_limit_at};
use si::Length;

// A power limit where its link begins at base.
fn placed_power(base: Length, l: CatPowerLimit) -> CatPowerLimit
    ensures { power_of result ≡ spec.placed_power base.0 (power_of l) }
{
    CatPowerLimit {
        offset_start: Length(base.0 + l.offset_start.0),
        offset_end: Length(base.0 + l.offset_end.0),
        ..l
    }
}

// Question 8 of `count` power limits from `first` on.
pub fn powers_finite(
    link_powers: &[f64],
    link_districts: &[u32],
    first: usize,
    count: usize,
    base: Length,
) -> bool
    requires { first + count < 2 ^ 40 }
    ensures { result ≡ every (spec.power_finite base.0) (up_from (power_at link_powers.now link_districts.now) first count) }
{
    for i in first..first + count {
        let l = placed_power(base, power_limit_at(link_powers, link_districts, i));
        if !(ieee::is_finite(l.offset_start.0) & ieee::is_finite(l.offset_end.0)) {
            return false;
        }
    }
    true
}

// Lays `count` power limits from `first` on behind the m of two columns; a struct of the two would serve this function and its one caller alone.
pub fn lay_powers(
    powers: &mut [f64],
    districts: &mut [u32],
    m: usize,
    link_powers: &[f64],
    link_districts: &[u32],
    first: usize,
    count: usize,
    base: Length,
)
    requires count_bound { first + count < 2 ^ 40 }
    requires count_bound_2 { 3 * (m + count) ≤ list.length powers.old }
    requires count_bound_3 { m + count ≤ list.length districts.old }
    requires holds_powers { spec.HoldsPowers powers.old districts.old (power_limits m powers.old districts.old) }
    ensures { spec.HoldsPowers powers.new districts.new
        (power_limits m powers.old districts.old ++ map (spec.placed_power base.0)
        (up_from (power_at link_powers.now link_districts.now) first count)) }
{
    for k in 0..count {
        let l = placed_power(base, power_limit_at(link_powers, link_districts, first + k));
        let t = Three(l.offset_start.0, l.offset_end.0, l.power_limit.0);
        column::put_record(&mut *powers, m + k, t);
        column::set(&mut *districts, m + k, l.district_id);
    }
}
