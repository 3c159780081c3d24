// Question 8 of `extend`: every listed link's sums, with the path's end carried from link to link.
ghost use Rattle.std.specs.Prelude.{◌≡◌, true, ◌<◌, ◌^◌};
ghost use Rattle.link.specs.Lists.{every, first_no};
ghost use Rattle.link.specs.Table.{table};
ghost use Rattle.path_speeds.specs.Limits.{sets_of, few_at};
ghost use Rattle.path_join.specs.Sums as spec;
ghost use Rattle.path_join.specs.Walked.{walked};

use link::network::{Network, link_numbers};
use link::train_params::TrainParams;
use path::lines::Lines;
use path_speeds::add_speeds::link_finite;
use path_stretches::powers::powers_finite;
use path_stretches::walk::walk_stretches;
use si::Length;

// Where the path stands when a link is joined.
#[derive(Clone, Copy)]
pub struct PathEnd {
    pub link: Length,
    pub grade: Length,
    pub grade_net: Length,
    pub curve_net: Length,
}

// Where the path stands after link i, joined where it stands, for a train of the length `own`; None: some sum is not finite.
fn walk_link(
    at: PathEnd,
    i: usize,
    network: &Network,
    own: Length,
    train: TrainParams,
) -> Option<PathEnd>
    requires i_bound { i < 2 ^ 40 }
    requires i_value { few_at train (sets_of (table network.now)) i ≡ true }
    ensures { result ≡ walked train own.0 (table network.now) at i }
{
    let l = link_numbers(network.links, i);
    let length = Length(column::get(network.lengths, i));
    let first = l.elevs_first as usize;
    let count = l.elevs_count as usize;
    let net = at.grade_net;
    let slopes = walk_stretches(
        Lines::Grades,
        network.elevs,
        first,
        count,
        at.grade,
        net,
        length,
        train,
    );
    let slopes = slopes.end()?;
    let first = l.headings_first as usize;
    let count = l.headings_count as usize;
    let net = at.curve_net;
    let bends = walk_stretches(
        Lines::Curves,
        network.headings,
        first,
        count,
        at.grade,
        net,
        length,
        train,
    );
    let bends = bends.end()?;
    let first = l.powers_first as usize;
    let count = l.powers_count as usize;
    let drawn = powers_finite(network.powers, network.districts, first, count, at.grade);
    let laid = link_finite(network, i, at.link, own, train);
    let end = length.0 + at.link.0;
    let further = ieee::is_finite(end) & (at.link.0 < end);
    if !(laid & (further & drawn)) {
        return None;
    }
    Some(PathEnd {
        link: Length(end),
        grade: slopes.offset,
        grade_net: slopes.net,
        curve_net: bends.net,
    })
}

// Question 8 of a list of links, for a train of the length `own`: the first that fails.
pub fn sums_question(
    at: PathEnd,
    list: &[u32],
    network: &Network,
    own: Length,
    train: TrainParams,
) -> Option<usize>
    requires { every
        (few_at train (sets_of (table network.now)))
        list.now ≡ true }
    ensures { result ≡ first_no
        (spec.sums_from train own.0 (table network.now) at list.now) }
{
    let mut here = at;
    for (k, i) in list.iter().enumerate() {
        let Some(after) = walk_link(here, *i as usize, network, own, train) else {
            return Some(k);
        };
        here = after;
    }
    None
}
