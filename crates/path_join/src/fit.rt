// Question 9 of `extend`: the records of the listed links fit into the columns.
ghost use Rattle.std.specs.Prelude.{◌≡◌, true, ◌*◌, ◌≤◌, ◌^◌, length};
ghost use Rattle.link.specs.Lists.{every};
ghost use Rattle.path_speeds.specs.Limits.{sets_of, few_at, count_at};
ghost use Rattle.link.specs.Table.{table};
ghost use Rattle.path.specs.Records.{lent};
ghost use Rattle.path.specs.Sound.{within_bounds};
ghost use Rattle.path_join.specs.Fit.{records_fit};
ghost use Rattle.path_join.specs.Walked.{counts_of};
ghost use Rattle.path_join.specs.Listed.{sum_of};

use link::network::{Network, link_numbers};
use link::train_params::TrainParams;
use path::columns::PathColumns;
use path::path_tpc::PathTpc;
use path::sound::within_bounds;
use path_speeds::add_speeds::link_limit_count;
use path_stretches::walk::stretch_count;

// How many grades, curves and power limits links have.
#[derive(Clone, Copy)]
pub struct Counts {
    pub grades: usize,
    pub curves: usize,
    pub powers: usize,
}

// Of the listed links.
fn sum_counts(list: &[u32], links: &[u32]) -> Counts
    requires { length list.now ≤ 1025 }
    ensures sums { result ≡ counts_of links.now list.now }
    ensures grades_bound { result.grades ≤ length list.now * 2 ^ 32 }
    ensures curves_bound { result.curves ≤ length list.now * 2 ^ 32 }
    ensures powers_bound { result.powers ≤ length list.now * 2 ^ 32 }
{
    let mut grades = 0;
    let mut curves = 0;
    let mut powers = 0;
    for i in list {
        let l = link_numbers(links, *i as usize);
        grades += stretch_count(l.elevs_count as usize);
        curves += stretch_count(l.headings_count as usize);
        powers += l.powers_count as usize;
    }
    Counts {
        grades,
        curves,
        powers,
    }
}

// How many limits the listed links lay.
fn sum_limits(list: &[u32], network: &Network, train: TrainParams) -> usize
    requires list_len_bound { length list.now ≤ 1025 }
    requires list_value { every (few_at train (sets_of (table network.now))) list.now ≡ true }
    ensures sum { result ≡ sum_of (count_at train (sets_of (table network.now))) list.now }
    ensures upper_bound { result ≤ length list.now * 2 ^ 32 }
{
    let mut n = 0;
    for i in list {
        n += link_limit_count(network, *i as usize, train);
    }
    n
}

// Question 9: the records of the listed links fit.
pub fn records_fit(
    p: PathTpc,
    train: TrainParams,
    list: &[u32],
    cols: &PathColumns,
    network: &Network,
) -> bool
    requires within_bounds { within_bounds p (lent cols.now) ≡ true }
    requires list_value { every (few_at train (sets_of (table network.now))) list.now ≡ true }
    ensures { result ≡ records_fit train (table network.now) list.now p (lent cols.now) }
{
    if 1025 < list.len() {
        return false;
    }
    let sum = sum_counts(list, network.links);
    let laid = sum_limits(list, network, train);
    let grown = PathTpc {
        link_count: p.link_count + list.len(),
        grade_count: p.grade_count + sum.grades,
        curve_count: p.curve_count + sum.curves,
        speed_count: p.speed_count + 2 * laid,
        power_count: p.power_count + sum.powers,
        is_finished: p.is_finished,
    };
    within_bounds(grown, cols)
}
