// `extend`: links are joined to a path's end.
ghost use Rattle.std.specs.Prelude.{◌≡◌, true, ◌+◌, ◌*◌, ◌≤◌, ◌<◌};
ghost use Rattle.std.proofs.Math.ListN as list;
ghost use Rattle.speed.specs.Column.{points, Holds, Leaves};
ghost use Rattle.link.specs.Lists.{every, up_from};
ghost use Rattle.link.specs.Table.{table};
ghost use Rattle.path.specs.Records.{held, lent, Same, link_points, point_at, path_of};
ghost use Rattle.answer.specs.Answers.{answer};
ghost use Rattle.path.specs.Answers.{left, changed, told};
ghost use Rattle.path.specs.Sound.{sound, total};
ghost use Rattle.path_speeds.specs.Limits.{sets_of, few_at, point_few, point_count, lay_links};
ghost use Rattle.path_join.specs.Joined.{started, join_all};
ghost use Rattle.path_extend.specs.Extend as spec;
ghost use Rattle.path_extend.specs.Ready as ready;

use answer::{Question, Refusal};
use link::network::Network;
use link::questions::{Numbers, question5};
use link::train_params::TrainParams;
use lookup::path_res_coeff::coeff_at;
use path::columns::{PathColumns, PathColumnsMut};
use path::finite::train_finite;
use path::lines::Lines;
use path::link_point::link_point_at;
use path::links::links_answer;
use path::path_tpc::PathTpc;
use path::questions::path_answer;
use path_join::fit::records_fit;
use path_join::join::{join_points, join_powers, join_records, start_net, starting_net};
use path_join::path_end::{PathEnd, sums_question};
use path_speeds::add_speeds::lay_links;
use si::Length;
use speed::speed_column::SpeedColumn;

// Question 5 of the listed links: each follows the one before, the first the path's last link where it has one.
fn follow_question(cols: &PathColumns, n: usize, list: &[u32], network: &Network) -> Option<usize>
    ensures { result ≡ spec.followed network.now.links.now (link_points n cols.now.offsets.now cols.now.numbers.now) list.now }
{
    if n < 2 {
        return question5(list, network.links, None);
    }
    let last = link_point_at(cols.offsets, cols.numbers, n - 2);
    question5(list, network.links, Some(last.link_idx))
}

// Where the path stands when the first listed link is joined.
fn start_path_end(p: PathTpc, list: &[u32], cols: &PathColumns, network: &Network) -> PathEnd
    requires link_count_nonzero { 0 < p.link_count }
    requires grade_count_nonzero { 0 < p.grade_count }
    requires curve_count_nonzero { 0 < p.curve_count }
    ensures { result ≡ ready.start_path_end p network.now.links.now network.now.elevs.now list.now cols.now.offsets.now
        cols.now.grades.now cols.now.curves.now }
{
    let grade = coeff_at(cols.grades, p.grade_count - 1);
    let curve = coeff_at(cols.curves, p.curve_count - 1);
    let net = starting_net(p.grade_count, grade.res_net, list, network);
    PathEnd {
        link: Length(column::get(cols.offsets, p.link_count - 1)),
        grade: grade.offset,
        grade_net: net,
        curve_net: curve.res_net,
    }
}

// Questions 8 and 9, for a train of the length `own`.
fn sums_answer(
    p: PathTpc,
    own: Length,
    train: TrainParams,
    list: &[u32],
    cols: &PathColumns,
    network: &Network,
) -> Result<(), Refusal>
    requires sound { sound p (lent cols.now) ≡ true }
    requires list_value { every (few_at train (sets_of (table network.now))) list.now ≡ true }
    ensures { answer result ≡ spec.sums_answer train own.0 (table network.now) list.now p (lent cols.now) }
{
    let start = start_path_end(p, list, cols, network);
    let sums = sums_question(start, list, network, own, train);
    Question::Results.ask_each(sums)?;
    let fit = records_fit(p, train, list, cols, network);
    Question::Room.ask(fit)
}

// Questions 1 to 9.
fn extend_answer(
    p: PathTpc,
    train: TrainParams,
    list: &[u32],
    cols: &PathColumns,
    network: &Network,
) -> Result<(), Refusal>
    ensures { answer result ≡ spec.extend_answer train (table network.now) list.now p (lent cols.now) }
{
    path_answer(p, train_finite(train), cols)?;
    let closed = p.is_finished;
    Question::Open.ask(!closed)?;
    let follows = follow_question(cols, p.link_count, list, network);
    let numbers = Numbers::Listed(list, list.len());
    links_answer(&numbers, follows, network, train.train_type)?;
    sums_answer(p, train.length, train, list, cols, network)
}

// The limits of `count` link points from `first` on, laid on the n points of a lent column, of which the struct is made here; their count afterwards.
fn join_limits(
    speeds: &mut [f64],
    n: usize,
    offsets: &[f64],
    numbers: &[u32],
    first: usize,
    count: usize,
    network: &Network,
    train: TrainParams,
) -> usize
    requires n_nonzero { 0 < n }
    requires count_bound { first + count ≤ 1025 }
    requires count_value { every (point_few train (sets_of (table network.now)))
        (up_from (point_at offsets.now numbers.now) first count) ≡ true }
    requires room { 2 *
        (n + 2 * total (point_count train (sets_of (table network.now))) (up_from (point_at offsets.now numbers.now) first count))
        ≤ list.length speeds.old }
    requires holds { Holds speeds.old (points n speeds.old) }
    ensures { Leaves speeds.new result
        (lay_links train train.length.0 (sets_of (table network.now)) (points n speeds.old)
        (up_from (point_at offsets.now numbers.now) first count)) }
{
    let mut laid = SpeedColumn {
        col: &mut *speeds,
        count: n,
    };
    let own = train.length;
    lay_links(
        &mut laid, offsets, numbers, first, count, network, own, train,
    );
    laid.count
}

// The listed links joined to a path in columns with zeros past the counts.
fn joined(
    p: PathTpc,
    train: TrainParams,
    list: &[u32],
    cols: &mut PathColumnsMut,
    network: &Network,
) -> PathTpc
    requires sound { sound p (held cols.old) ≡ true }
    requires ready { ready.Ready train (table network.now) list.now p (held cols.old) }
    ensures same { Same cols.old cols.new }
    ensures outcome { left (ready.done_with result) (held cols.new) ≡ changed (held cols.old)
        (join_all train (table network.now) (started (table network.now) (path_of p (held cols.old)) list.now) list.now) }
{
    // Read through `&mut`: a `&` of one field is not covered yet beside the `&mut` of another.
    let begin = coeff_at(&mut *cols.grades, p.grade_count - 1).offset;
    let n = p.link_count;
    join_points(&mut *cols.offsets, &mut *cols.numbers, n, list, network);
    let speed_count = join_limits(
        &mut *cols.speeds,
        p.speed_count,
        &mut *cols.offsets,
        &mut *cols.numbers,
        n - 1,
        list.len(),
        network,
        train,
    );
    let m = p.grade_count;
    start_net(&mut *cols.grades, m, list, network);
    let grade_count = join_records(
        &mut *cols.grades,
        m,
        Lines::Grades,
        begin,
        list,
        network,
        train,
    );
    let m = p.curve_count;
    let curve_count = join_records(
        &mut *cols.curves,
        m,
        Lines::Curves,
        begin,
        list,
        network,
        train,
    );
    let m = p.power_count;
    let power_count = join_powers(
        &mut *cols.powers,
        &mut *cols.districts,
        m,
        begin,
        list,
        network,
    );
    PathTpc {
        link_count: n + list.len(),
        grade_count,
        curve_count,
        speed_count,
        power_count,
        is_finished: p.is_finished,
    }
}

// Joins the listed links to the path's end.
pub fn extend(
    p: PathTpc,
    train: TrainParams,
    list: &[u32],
    cols: &mut PathColumnsMut,
    network: &Network,
) -> Result<PathTpc, Refusal>
    ensures same { Same cols.old cols.new }
    ensures outcome { left (told p result) (held cols.new) ≡ spec.extend_of train (table network.now) list.now p (held cols.old) }
{
    extend_answer(p, train, list, &cols.reading(), network)?;
    cols.zero_rest(p);
    Ok(joined(p, train, list, &mut *cols, network))
}
