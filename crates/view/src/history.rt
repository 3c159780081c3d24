// What was joined since `new`, dropped links too: limits laid, link borders and heights.
ghost use Rattle.std.specs.Prelude.{Some, ◌≡◌, ◌≤◌, [], ◌∷◌, length, take};
ghost use Rattle.link.specs.Train.{length_of, top_speed};
ghost use Rattle.link.specs.Table.{table, limit_of};
ghost use Rattle.path_speeds.specs.Limits.{sets_of};
ghost use Rattle.view.specs.History as spec;

use link::cat_power::speed_limit_at;
use link::network::Network;
use link::speed_set::SpeedSet;
use link::train_params::TrainParams;
use path::columns::PathColumns;
use path::link_point::{LinkPoint, link_point_at};
use path_speeds::limits::{applying_set, placed, tail_of};
use si::Length;
use speed::laid::Laid;
use speed::speed_limit::SpeedLimit;

// How many limits, link borders and heights there are. The arrays are the caller's, since no library crate has a heap.
#[derive(Clone, Copy, Default)]
pub struct History {
    pub limits: usize,
    pub borders: usize,
    pub heights: usize,
}

// A record behind the first n, where there is room for it; how many there are then.
pub fn put<T: Copy>(all: &mut [T], n: usize, one: T) -> usize
    ensures laid { take result all.new ≡ spec.with_more all.old n (one ∷ []) }
    ensures within { result ≤ length all.new }
{
    if n < all.len() {
        all[n] = one;
        return n + 1;
    }
    all.len()
}

// Limit l of the link with this number, laid from base on.
fn laid_limit(l: SpeedLimit, base: Length, tail: Length, number: u32) -> Laid
    ensures { result ≡ spec.laid_of base.0 tail.0 number (limit_of l) }
{
    let laid = placed(l, base, tail);
    let board = placed(l, base, Length(0.0));
    Laid {
        start: laid.offset_start.0,
        board: board.offset_end.0,
        end: laid.offset_end.0,
        value: laid.speed.0,
        link: number,
    }
}

// The limits of a set below the top speed, laid from base on, behind the first n; how many there are then.
fn add_limits(
    limits: &[f64],
    s: SpeedSet,
    base: Length,
    number: u32,
    train: TrainParams,
    all: &mut [Laid],
    n: usize,
) -> usize
    ensures laid { take result all.new
        ≡ spec.with_more all.old n (spec.set_lays (top_speed train) base.0 (length_of train) number limits.now (Some s)) }
    ensures within { result ≤ length all.new }
{
    let tail = tail_of(s, Length(train.length.0));
    let first = s.limits_first as usize;
    let end = first + (s.limits_count as usize);
    let mut m = n.min(all.len());
    for i in first..end {
        let l = speed_limit_at(limits, i);
        if l.speed.0 < train.speed_max.0 {
            m = put(&mut *all, m, laid_limit(l, base, tail, number));
        }
    }
    m
}

// The set that the limits of link i come from; none where it has more than 64 conditions or they do not hold.
fn applying(network: &Network, i: u32, train: TrainParams) -> Option<SpeedSet>
    ensures { result ≡ spec.set_taken train network.now.sets.now network.now.codes.now network.now.values.now i }
{
    let number = i as usize;
    let s = network.set_for(number, train.train_type)?;
    if 64 < s.params_count {
        return None;
    }
    applying_set(network, number, train)
}

// The limits of a link point's link, behind the first n.
fn add_link(
    p: LinkPoint,
    network: &Network,
    train: TrainParams,
    all: &mut [Laid],
    n: usize,
) -> usize
    ensures laid { take result all.new
        ≡ spec.with_more all.old n (spec.point_lays train (sets_of (table network.now)) p) }
    ensures within { result ≤ length all.new }
{
    let number = p.link_idx;
    let Some(s) = applying(network, number, train) else {
        return n.min(all.len());
    };
    add_limits(network.limits, s, p.offset, number, train, all, n)
}

// The limits of the links at link points from..to, behind the first n, as many as there is room for; how many there are then.
pub fn add_links(
    path: &PathColumns,
    from: usize,
    to: usize,
    network: &Network,
    train: TrainParams,
    all: &mut [Laid],
    n: usize,
) -> usize
    ensures laid { take result all.new
        ≡ spec.with_more all.old n
        (spec.lay_from_to train (sets_of (table network.now)) path.now.offsets.now path.now.numbers.now from to) }
    ensures within { result ≤ length all.new }
{
    let mut m = n.min(all.len());
    for k in from..to {
        let p = link_point_at(path.offsets, path.numbers, k);
        m = add_link(p, network, train, &mut *all, m);
    }
    m
}
