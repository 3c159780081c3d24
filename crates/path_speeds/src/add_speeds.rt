// The limits of a link, and of the links of link points, laid on a column of speed points.
ghost use Rattle.std.specs.Prelude.{◌≡◌, true, map, ◌+◌, ◌*◌, ◌≤◌, ◌<◌, ◌^◌};
ghost use Rattle.speed.specs.Becomes.{points_of, HasRoom, Becomes};
ghost use Rattle.link.specs.Lists.{every, up_from, first_no};
ghost use Rattle.link.specs.Table.{table};
ghost use Rattle.path.specs.Records.{point_at};
ghost use Rattle.path.specs.Sound.{total};
ghost use Rattle.path_speeds.specs.Limits as spec;

use crate::limits::{applying_set, lay_limits, limits_count, limits_finite};
use link::network::Network;
use link::train_params::TrainParams;
use path::link_point::link_point_at;
use si::Length;
use speed::speed_column::SpeedColumn;

// Question 8 of the limits of link i, where it begins at base.
pub fn link_finite(
    network: &Network,
    i: usize,
    base: Length,
    length: Length,
    train: TrainParams,
) -> bool
    requires i_bound { i < 2 ^ 40 }
    requires i_value { spec.few_at train (spec.sets_of (table network.now)) i ≡ true }
    ensures { result ≡ spec.finite_at train length.0 (spec.sets_of (table network.now)) base.0 i }
{
    let Some(s) = applying_set(network, i, train) else {
        return true;
    };
    limits_finite(network.limits, s, base, length, train.speed_max)
}

// How many limits link i lays.
pub fn link_limit_count(network: &Network, i: usize, train: TrainParams) -> usize
    requires i_bound { i < 2 ^ 40 }
    requires i_value { spec.few_at train (spec.sets_of (table network.now)) i ≡ true }
    ensures count { result ≡ spec.count_at train (spec.sets_of (table network.now)) i }
    ensures upper_bound { result < 2 ^ 32 }
{
    let Some(s) = applying_set(network, i, train) else {
        return 0;
    };
    limits_count(network.limits, s, train.speed_max)
}

// Lays the limits of link i, where it begins at base.
pub fn add_speeds(
    speeds: &mut SpeedColumn,
    network: &Network,
    i: usize,
    base: Length,
    length: Length,
    train: TrainParams,
)
    requires some { 0 < speeds.old.count }
    requires i_bound { i < 2 ^ 40 }
    requires i_value { spec.few_at train (spec.sets_of (table network.now)) i ≡ true }
    requires room { HasRoom (2 * spec.count_at train (spec.sets_of (table network.now)) i) speeds.old }
    ensures { Becomes speeds.old speeds.new
        (spec.lay_all (points_of speeds.old) (spec.laying_at train length.0 (spec.sets_of (table network.now)) base.0 i)) }
{
    let Some(s) = applying_set(network, i, train) else {
        return;
    };
    let top = train.speed_max;
    lay_limits(&mut *speeds, network.limits, s, base, length, top);
}

// Question 8 of the limits of the first `count` link points: the first that fails.
pub fn points_finite(
    offsets: &[f64],
    numbers: &[u32],
    count: usize,
    network: &Network,
    length: Length,
    train: TrainParams,
) -> Option<usize>
    requires { every (spec.point_few train (spec.sets_of (table network.now)))
        (up_from (point_at offsets.now numbers.now) 0 count) ≡ true }
    ensures { result ≡ first_no
        (map
        (spec.point_finite train length.0 (spec.sets_of (table network.now)))
        (up_from (point_at offsets.now numbers.now) 0 count)) }
{
    for k in 0..count {
        let p = link_point_at(offsets, numbers, k);
        if !link_finite(network, p.link_idx as usize, p.offset, length, train) {
            return Some(k);
        }
    }
    None
}

// How many limits the first `count` link points lay.
pub fn points_count(
    offsets: &[f64],
    numbers: &[u32],
    count: usize,
    network: &Network,
    train: TrainParams,
) -> usize
    requires count_bound { count ≤ 1025 }
    requires count_value { every (spec.point_few train (spec.sets_of (table network.now)))
        (up_from (point_at offsets.now numbers.now) 0 count) ≡ true }
    ensures count { result ≡ total
        (spec.point_count train (spec.sets_of (table network.now)))
        (up_from (point_at offsets.now numbers.now) 0 count) }
    ensures upper_bound { result ≤ count * 2 ^ 32 }
{
    let mut n = 0;
    for k in 0..count {
        let p = link_point_at(offsets, numbers, k);
        n += link_limit_count(network, p.link_idx as usize, train);
    }
    n
}

// Lays the limits of `count` link points from `first` on.
pub fn lay_links(
    speeds: &mut SpeedColumn,
    offsets: &[f64],
    numbers: &[u32],
    first: usize,
    count: usize,
    network: &Network,
    length: Length,
    train: TrainParams,
)
    requires some { 0 < speeds.old.count }
    requires count_bound { first + count ≤ 1025 }
    requires count_value { every (spec.point_few train (spec.sets_of (table network.now)))
        (up_from (point_at offsets.now numbers.now) first count) ≡ true }
    requires room { HasRoom
        (2 * total (spec.point_count train (spec.sets_of (table network.now))) (up_from (point_at offsets.now numbers.now) first count))
        speeds.old }
    ensures { Becomes speeds.old speeds.new
        (spec.lay_links train length.0 (spec.sets_of (table network.now)) (points_of speeds.old)
        (up_from (point_at offsets.now numbers.now) first count)) }
{
    for k in first..first + count {
        let p = link_point_at(offsets, numbers, k);
        let i = p.link_idx as usize;
        add_speeds(&mut *speeds, network, i, p.offset, length, train);
    }
}
