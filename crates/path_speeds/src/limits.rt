// The limits of a set: which apply, where they are laid, and whether the sums for that are finite.
ghost use Rattle.std.specs.Prelude.{Some, ◌≡◌, true, ◌*◌, ◌<◌, ◌^◌};
ghost use Rattle.speed.specs.Becomes.{points_of, HasRoom, Becomes};
ghost use Rattle.link.specs.Table.{limit_of, set_at, set_for};
ghost use Rattle.path_speeds.specs.Limits as spec;

use link::cat_power::speed_limit_at;
use link::network::Network;
use link::speed_set::SpeedSet;
use link::train_params::TrainParams;
use si::{Length, Velocity};
use speed::speed_column::SpeedColumn;
use speed::speed_limit::SpeedLimit;

// The set of link i for the train, if its conditions hold.
pub fn applying_set(network: &Network, i: usize, train: TrainParams) -> Option<SpeedSet>
    requires i_bound { i < 2 ^ 40 }
    requires train_type_value { spec.few_conditions (set_for (set_at network.now.sets.now i) train.train_type) ≡ true }
    ensures { result ≡ spec.applying_set train network.now.sets.now network.now.codes.now network.now.values.now i }
{
    let kind = train.train_type;
    let Some(s) = network.set_for(i, kind) else {
        return None;
    };
    let first = s.params_first as usize;
    let count = s.params_count as usize;
    if network.speed_set_applies(first, count, train) {
        return Some(s);
    }
    None
}

// What the set's limits hold on behind their end: nothing for a head-end set, else the train's length.
pub fn tail_of(s: SpeedSet, length: Length) -> Length
    ensures { result.0 ≡ spec.tail_of length.0 s }
{
    if s.is_head_end == 1 {
        return Length(0.0);
    }
    length
}

// A limit as it is laid: base and tail added.
pub fn placed(l: SpeedLimit, base: Length, tail: Length) -> SpeedLimit
    ensures { limit_of result ≡ spec.placed base.0 tail.0 (limit_of l) }
{
    SpeedLimit {
        offset_start: Length(l.offset_start.0 + base.0),
        offset_end: Length(l.offset_end.0 + base.0 + tail.0),
        speed: l.speed,
    }
}

// Whether the sums for laying a limit are finite; nothing is asked of one that is not below the top speed.
fn laid_finite(l: SpeedLimit, base: Length, tail: Length, top: Velocity) -> bool
    ensures { result ≡ spec.laid_finite top.0 base.0 tail.0 (limit_of l) }
{
    if !(l.speed.0 < top.0) {
        return true;
    }
    let end = l.offset_end.0 + base.0;
    ieee::is_finite(l.offset_start.0 + base.0)
        & (ieee::is_finite(end) & ieee::is_finite(end + tail.0))
}

// Question 8 of the limits of a set.
pub fn limits_finite(
    limits: &[f64],
    s: SpeedSet,
    base: Length,
    length: Length,
    top: Velocity,
) -> bool
    ensures { result ≡ spec.limits_finite top.0 base.0 length.0 limits.now (Some s) }
{
    let tail = tail_of(s, length);
    let first = s.limits_first as usize;
    let end = first + (s.limits_count as usize);
    for i in first..end {
        if !laid_finite(speed_limit_at(limits, i), base, tail, top) {
            return false;
        }
    }
    true
}

// How many limits of a set are below the top speed.
pub fn limits_count(limits: &[f64], s: SpeedSet, top: Velocity) -> usize
    ensures count { result ≡ spec.count_laid top.0 limits.now (Some s) }
    ensures upper_bound { result < 2 ^ 32 }
{
    let first = s.limits_first as usize;
    let end = first + (s.limits_count as usize);
    let mut n = 0;
    for i in first..end {
        if speed_limit_at(limits, i).speed.0 < top.0 {
            n += 1;
        }
    }
    n
}

// Lays the limits of a set that are below the top speed.
pub fn lay_limits(
    speeds: &mut SpeedColumn,
    limits: &[f64],
    s: SpeedSet,
    base: Length,
    length: Length,
    top: Velocity,
)
    requires some { 0 < speeds.old.count }
    requires room { HasRoom (2 * spec.count_laid top.0 limits.now (Some s)) speeds.old }
    ensures { Becomes speeds.old speeds.new
        (spec.lay_all (points_of speeds.old) (spec.laying top.0 base.0 length.0 limits.now (Some s))) }
{
    let tail = tail_of(s, length);
    let first = s.limits_first as usize;
    let end = first + (s.limits_count as usize);
    for i in first..end {
        let l = speed_limit_at(limits, i);
        if l.speed.0 < top.0 {
            speeds.insert_speed(placed(l, base, tail));
        }
    }
}
