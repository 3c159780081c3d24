// One stretch: from an elevation to the next, or from a heading to the next.
ghost use Rattle.std.specs.Prelude.{◌≡◌};
ghost use Rattle.link.specs.Table.{elev_of, heading_of};
ghost use Rattle.path_stretches.specs.Stretches as spec;

use crate::remainder::remainder;
use link::elev::{Elev, Heading};
use link::train_params::TrainParams;
use si::{Curvature, Length, Ratio};

// What a stretch adds: a coefficient for the record before (None: that keeps its own), and a record at the stretch's end.
// `finite` says whether every result on the way is; the record is laid as it is either way.
#[derive(Clone, Copy)]
pub struct Stretch {
    pub coefficient: Option<Ratio>,
    pub offset: Length,
    pub net: Length,
    pub finite: bool,
}

// Where stretches end; `finite` says whether every result on the way is, and the end is told either way.
#[derive(Clone, Copy)]
pub struct Reached {
    pub finite: bool,
    pub offset: Length,
    pub net: Length,
}

// The end alone.
#[derive(Clone, Copy)]
pub struct StretchEnd {
    pub offset: Length,
    pub net: Length,
}

impl Reached {
    // Where they end, if every result on the way is finite.
    pub fn end(self) -> Option<StretchEnd>
        ensures { result ≡ spec.end_of self }
    {
        if self.finite {
            return Some(StretchEnd {
                offset: self.offset,
                net: self.net,
            });
        }
        None
    }
}

// A link without elevations, or without headings.
pub fn flat_stretch(base: Length, net: Length, length: Length) -> Stretch
    ensures { result ≡ spec.flat_stretch base.0 net.0 length.0 }
{
    let offset = base.0 + length.0;
    Stretch {
        coefficient: None,
        offset: Length(offset),
        net,
        finite: ieee::is_finite(offset),
    }
}

// Rise over run, and the elevation at the end. The rise is finite where the slope is, and the raised elevation where the one after it is.
pub fn grade_stretch(base: Length, net: Length, prior: Elev, current: Elev) -> Stretch
    ensures { result ≡ spec.grade_stretch base.0 net.0 (elev_of prior) (elev_of current) }
{
    let rise = current.elev.0 - prior.elev.0;
    let run = current.offset.0 - prior.offset.0;
    let slope = rise / run;
    let raised = net.0 + current.elev.0;
    let after = raised - prior.elev.0;
    let offset = base.0 + current.offset.0;
    let finite = ieee::is_finite(slope)
        & (ieee::is_finite(run) & (ieee::is_finite(after) & ieee::is_finite(offset)));
    Stretch {
        coefficient: Some(Ratio(slope)),
        offset: Length(offset),
        net: Length(after),
        finite,
    }
}

// The resistance of a curve: by the first coefficient below one degree per 100 ft, by all three from there on.
// Where it is finite, so is every result on the way to it.
fn curve_work(c0: Ratio, c1: Ratio, c2: Ratio, curvature: Curvature) -> Ratio
    ensures { result ≡ (spec.curve_work c0.0 c1.0 c2.0 curvature.0).value }
{
    let one = si::one_degree_per_100ft().0;
    if curvature.0 < one {
        return Ratio(c0.0 * curvature.0);
    }
    let over = curvature.0 - one;
    let a = c0.0 * one;
    let b = c1.0 * over;
    let q = c2.0 * over;
    Ratio(a + b + q * over / 1.0)
}

// The turn between two headings over the run, as curvature.
fn curvature_of(turn: f64, run: f64) -> Curvature
    ensures { result.0 ≡ spec.curvature_of turn run }
{
    let rest = remainder(turn + si::half_rev().0);
    Curvature(ieee::size(-si::half_rev().0 + rest) / run)
}

// The curve between two headings. The net value is finite only where every result on the way to it is.
pub fn curve_stretch(
    base: Length,
    net: Length,
    prior: Heading,
    current: Heading,
    train: TrainParams,
) -> Stretch
    ensures { result ≡ spec.curve_stretch train base.0 net.0 (heading_of prior) (heading_of current) }
{
    let run = current.offset.0 - prior.offset.0;
    let turn = current.heading.0 - prior.heading.0;
    let work = curve_work(
        train.curve_coeff_0,
        train.curve_coeff_1,
        train.curve_coeff_2,
        curvature_of(turn, run),
    );
    let coefficient = work.0 / 1.0;
    let rise = coefficient * run;
    let after = net.0 + rise;
    let offset = base.0 + current.offset.0;
    Stretch {
        coefficient: Some(Ratio(coefficient)),
        offset: Length(offset),
        net: Length(after),
        finite: ieee::is_finite(after) & ieee::is_finite(offset),
    }
}
