// Limits of speed and of power: a start, an end and a value, three entries to a limit.
ghost use Rattle.std.specs.Prelude.{◌≡◌, ◌+◌, ◌*◌, ◌^◌, ◌<◌, ◌≤◌, length};
ghost use Rattle.link.specs.Lists.{every, up_from};
ghost use Rattle.link.specs.Table.{limit_at, limit_of, power_at, power_of};
ghost use Rattle.link.specs.Questions.{limit_formed};

use si::{Length, Power, Velocity};
use speed::speed_limit::SpeedLimit;

#[derive(Clone, Copy)]
pub struct CatPowerLimit {
    pub offset_start: Length,
    pub offset_end: Length,
    pub power_limit: Power,
    pub district_id: u32,
}

// Limit i of the pool of speed limits, with one test where it lies in it.
pub fn speed_limit_at(limits: &[f64], i: usize) -> SpeedLimit
    ensures { limit_of result ≡ limit_at limits.now i }
{
    if i < limits.len() / 3 {
        let k = 3 * i;
        return SpeedLimit {
            offset_start: Length(limits[k]),
            offset_end: Length(limits[k + 1]),
            speed: Velocity(limits[k + 2]),
        };
    }
    let t = column::record_at::<column::Three>(limits, i);
    SpeedLimit {
        offset_start: Length(t.0),
        offset_end: Length(t.1),
        speed: Velocity(t.2),
    }
}

// Limit i of the pool of power limits.
pub fn power_limit_at(powers: &[f64], districts: &[u32], i: usize) -> CatPowerLimit
    ensures { power_of result ≡ power_at powers.now districts.now i }
{
    let t = column::record_at::<column::Three>(powers, i);
    CatPowerLimit {
        offset_start: Length(t.0),
        offset_end: Length(t.1),
        power_limit: Power(t.2),
        district_id: column::get(districts, i),
    }
}

// Question 6 of limit i, which lies in the pool: every number finite, 0 <= start <= end.
fn limit_formed(limits: &[f64], i: usize) -> bool
    requires i_bound { i < 2 ^ 40 }
    requires i_in_bounds { 3 * i + 2 < length limits.now }
    ensures { result ≡ limit_formed (limit_at limits.now i) }
{
    let k = 3 * i;
    let start = limits[k];
    let end = limits[k + 1];
    let finite = ieee::is_finite(start) & (ieee::is_finite(end) & ieee::is_finite(limits[k + 2]));
    finite & ((0.0 <= start) & (start <= end))
}

// Question 6 of `count` limits from `first` on, of speed or of power. One pass with no early exit.
pub fn limits_formed(limits: &[f64], first: usize, count: usize) -> bool
    requires count_bound { first + count < 2 ^ 40 }
    requires count_in_bounds { 3 * (first + count) ≤ length limits.now }
    ensures { result ≡ every limit_formed (up_from (limit_at limits.now) first count) }
{
    let mut ok = true;
    for i in first..first + count {
        ok = ok & limit_formed(limits, i);
    }
    ok
}
