// `recalc_speeds`: the limits of the links still present, laid anew.
ghost use Rattle.std.specs.Prelude.{◌≡◌, true, ◌+◌, ◌*◌, ◌≤◌};
ghost use Rattle.std.proofs.Math.ListN as list;
ghost use Rattle.speed.specs.Column.{Leaves};
ghost use Rattle.link.specs.Lists.{every, up_from};
ghost use Rattle.link.specs.Table.{table};
ghost use Rattle.path.specs.Records.{lent, held, Same, point_at};
ghost use Rattle.answer.specs.Answers.{answer};
ghost use Rattle.path.specs.Answers.{left, told};
ghost use Rattle.path.specs.Sound.{total};
ghost use Rattle.path_speeds.specs.Limits.{sets_of, point_few, point_count};
ghost use Rattle.path_speeds.specs.Recalc as spec;

use crate::add_speeds::{lay_links, points_count, points_finite};
use answer::{Question, Refusal};
use column::{Two, put_record};
use link::network::Network;
use link::questions::Numbers;
use link::train_params::TrainParams;
use path::columns::{PathColumns, PathColumnsMut};
use path::finite::train_finite;
use path::links::links_answer;
use path::path_tpc::PathTpc;
use path::questions::path_answer;
use path::sound::within;
use si::Length;
use speed::speed_column::SpeedColumn;

// Questions 8 and 9 of the first `count` link points, for a train of the length `own`.
fn limits_answer(
    cols: &PathColumns,
    count: usize,
    network: &Network,
    own: Length,
    train: TrainParams,
) -> Result<(), Refusal>
    requires count_bound { count ≤ 1025 }
    requires count_value { every (point_few train (sets_of (table network.now)))
        (up_from (point_at cols.now.offsets.now cols.now.numbers.now) 0 count) ≡ true }
    ensures { answer result ≡ spec.limits_answer train own.0 (sets_of (table network.now))
        (up_from (point_at cols.now.offsets.now cols.now.numbers.now) 0 count) (list.length cols.now.speeds.now) }
{
    let sums = points_finite(cols.offsets, cols.numbers, count, network, own, train);
    Question::Results.ask_each(sums)?;
    let laid = points_count(cols.offsets, cols.numbers, count, network, train);
    let half = cols.speeds.len() / 2;
    Question::Room.ask(within(1 + 2 * laid, 4096, half, half))
}

// Questions 1, 2, 4 and 6 to 9.
fn recalc_answer(
    p: PathTpc,
    train: TrainParams,
    cols: &PathColumns,
    network: &Network,
) -> Result<(), Refusal>
    ensures { answer result ≡ spec.recalc_answer train (table network.now) p (lent cols.now) }
{
    path_answer(p, train_finite(train), cols)?;
    let count = p.link_count - 1;
    let numbers = Numbers::OfPoints(cols.numbers, count);
    links_answer(&numbers, None, network, train.train_type)?;
    limits_answer(cols, count, network, train.length, train)
}

// One speed point, at the path's beginning, and then the limits of the first `count` link points, for a train of the length `own`.
// It makes the struct of the lent column.
fn lay_anew(
    speeds: &mut [f64],
    offsets: &[f64],
    numbers: &[u32],
    count: usize,
    network: &Network,
    own: Length,
    train: TrainParams,
) -> usize
    requires count_bound { count ≤ 1025 }
    requires count_value { every (point_few train (sets_of (table network.now)))
        (up_from (point_at offsets.now numbers.now) 0 count) ≡ true }
    requires room { 2 *
        (1 + 2 * total (point_count train (sets_of (table network.now))) (up_from (point_at offsets.now numbers.now) 0 count)) ≤
        list.length speeds.old }
    ensures { Leaves speeds.new result
        (spec.laid_anew train own.0 (sets_of (table network.now))
        (up_from (point_at offsets.now numbers.now) 0 count) (point_at offsets.now numbers.now 0)) }
{
    let begin = column::get(offsets, 0);
    column::zero_from(&mut *speeds, 0);
    put_record(&mut *speeds, 0, Two(begin, train.speed_max.0));
    let mut points = SpeedColumn {
        col: &mut *speeds,
        count: 1,
    };
    lay_links(&mut points, offsets, numbers, 0, count, network, own, train);
    points.count
}

// The speed points anew: from the path's beginning at the top speed, and then the limits of its links.
pub fn recalc_speeds(
    p: PathTpc,
    train: TrainParams,
    cols: &mut PathColumnsMut,
    network: &Network,
) -> Result<PathTpc, Refusal>
    ensures same { Same cols.old cols.new }
    ensures outcome { left (told p result) (held cols.new) ≡ spec.recalc_of train (table network.now) p (held cols.old) }
{
    recalc_answer(p, train, &cols.reading(), network)?;
    cols.zero_rest(p);
    let count = p.link_count - 1;
    let own = train.length;
    // The link points are only read: a `&` is not covered yet beside the `&mut` of another field.
    let speed_count = lay_anew(
        &mut *cols.speeds,
        &mut *cols.offsets,
        &mut *cols.numbers,
        count,
        network,
        own,
        train,
    );
    Ok(PathTpc { speed_count, ..p })
}
