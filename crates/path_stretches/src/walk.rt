// The stretches of a link: walked dry for question 8, and laid on a column of grades or curves.
ghost use Rattle.std.specs.Prelude.{◌≡◌, ◌+◌, ◌-◌, ◌<◌, ◌^◌};
ghost use Rattle.lookup.specs.Coeff.{net_of};
ghost use Rattle.link.specs.Lists.{up_from};
ghost use Rattle.link.specs.Table.{sample_at};
ghost use Rattle.path.specs.Records.{last_coeff};
ghost use Rattle.path.specs.Sound.{is_curves};
ghost use Rattle.path_stretches.specs.Becomes.{coeffs_of, HasRoom, Becomes};
ghost use Rattle.path_stretches.specs.Stretches as spec;

use crate::coeff_column::CoeffColumn;
use crate::stretch::{Reached, Stretch, curve_stretch, flat_stretch, grade_stretch};
use link::elev::{elev_at, heading_at};
use link::train_params::TrainParams;
use path::lines::Lines;
use si::Length;

// How many records `count` samples give.
pub fn stretch_count(count: usize) -> usize
    ensures { result ≡ spec.record_count count }
{
    if count == 0 {
        return 1;
    }
    count - 1
}

// The stretch from sample i - 1 to sample i. No match: where its arms meet the record is copied once more, a twentieth of an extension.
fn stretch_at(
    lines: Lines,
    pool: &[f64],
    i: usize,
    base: Length,
    net: Length,
    train: TrainParams,
) -> Stretch
    requires { 0 < i }
    ensures { result ≡ spec.stretch_step (is_curves lines) train base.0 net.0 (sample_at pool.now (i - 1)) (sample_at pool.now i) }
{
    if let Lines::Curves = lines {
        return curve_stretch(
            base,
            net,
            heading_at(pool, i - 1),
            heading_at(pool, i),
            train,
        );
    }
    grade_stretch(base, net, elev_at(pool, i - 1), elev_at(pool, i))
}

// Where the stretches of `count` samples from `first` on end.
pub fn walk_stretches(
    lines: Lines,
    pool: &[f64],
    first: usize,
    count: usize,
    base: Length,
    net: Length,
    length: Length,
    train: TrainParams,
) -> Reached
    requires { first + count < 2 ^ 40 }
    ensures { result ≡ spec.reached base.0 net.0
        (spec.stretches (is_curves lines) train base.0 net.0 length.0 (up_from (sample_at pool.now) first count)) }
{
    if count == 0 {
        let s = flat_stretch(base, net, length);
        return Reached {
            finite: s.finite,
            offset: s.offset,
            net: s.net,
        };
    }
    let mut at = Reached {
        finite: true,
        offset: base,
        net,
    };
    for i in first + 1..first + count {
        let s = stretch_at(lines, pool, i, base, at.net, train);
        at = Reached {
            finite: at.finite & s.finite,
            offset: s.offset,
            net: s.net,
        };
    }
    at
}

impl CoeffColumn<'_> {
    // Lays the stretches of `count` samples from `first` on.
    pub fn lay_stretches(
        &mut self,
        lines: Lines,
        pool: &[f64],
        first: usize,
        count: usize,
        base: Length,
        length: Length,
        train: TrainParams,
    )
        requires count_bound { first + count < 2 ^ 40 }
        requires room { HasRoom (spec.stretch_count (up_from (sample_at pool.now) first count)) self.old }
        ensures { Becomes self.old self.new
            (spec.lay_stretches (coeffs_of self.old)
            (spec.stretches (is_curves lines) train base.0 (net_of (last_coeff (coeffs_of self.old))) length.0
            (up_from (sample_at pool.now) first count))) }
    {
        let mut net = self.last().res_net;
        if count == 0 {
            self.lay(flat_stretch(base, net, length));
            return;
        }
        for i in first + 1..first + count {
            let s = stretch_at(lines, pool, i, base, net, train);
            net = s.net;
            self.lay(s);
        }
    }
}
