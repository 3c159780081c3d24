// `clear` at one offset after another, all or nothing: questions 1 and 2 of the path are asked once, and the records move once.
ghost use Rattle.std.specs.Prelude.{◌≡◌, ◌<◌, drop};
ghost use Rattle.answer.specs.Answers.{answer};
ghost use Rattle.path.specs.Records.{lent, held, Same, link_points};
ghost use Rattle.path_clear.specs.Clear.{trimmed_left, trimmed_told};
ghost use Rattle.path_clear.specs.TrimsByPoints as spec;
ghost use Rattle.path_clear.specs.Trims.{clear_each};

use crate::clear::{Trimmed, cleared, drop_from};
use answer::{Question, Refusal};
use path::columns::{PathColumns, PathColumnsMut};
use path::path_tpc::PathTpc;
use path::questions::path_answer;

// Questions 1, 10 and 12 of a trim behind x, where `from` of n link points are gone.
fn trim_answer(cols: &PathColumns, n: usize, from: usize, x: f64) -> Result<(), Refusal>
    requires { from < n }
    ensures { answer result ≡ spec.trim_answer x (drop from (link_points n cols.now.offsets.now cols.now.numbers.now)) }
{
    Question::Finite.ask(ieee::is_finite(x))?;
    let first = column::get(cols.offsets, from);
    let last = column::get(cols.offsets, n - 1);
    Question::InRange.ask((first <= x) & (x <= last))?;
    Question::Drops.ask(2 <= n - from)
}

// The trims of a sound path with n link points, without moving anything: so many link points go.
fn going(xs: &[f64], n: usize, cols: &PathColumns) -> Result<usize, Refusal>
    requires { 0 < n }
    ensures { spec.got result (spec.going_of 0 0 xs.now (link_points n cols.now.offsets.now cols.now.numbers.now)) }
{
    let mut gone = 0;
    for (k, x) in xs.iter().enumerate() {
        if let Err(e) = trim_answer(cols, n, gone, *x) {
            return e.question.refused_at(k);
        }
        gone = drop_from(cols, n, gone, *x);
    }
    Ok(gone)
}

// Question 1 of a list's first offset, which the first trim asks with the path's numbers.
fn first_finite(xs: &[f64]) -> bool
    ensures { result ≡ spec.first_finite xs.now }
{
    match xs.first() {
        None => true,
        Some(x) => ieee::is_finite(*x),
    }
}

// Every question of a list of trims: 1 and 2 of the path once, and then those of each trim in turn.
fn judge_trims(p: PathTpc, xs: &[f64], cols: &PathColumns) -> Result<usize, Refusal>
    ensures { spec.got result (spec.progress_of xs.now p (lent cols.now)) }
{
    path_answer(p, first_finite(xs), cols)?;
    going(xs, p.link_count, cols)
}

// Drops the links behind each offset of a list in turn: all of them, or none where a trim is refused.
pub fn clear_each(p: PathTpc, xs: &[f64], cols: &mut PathColumnsMut) -> Result<Trimmed, Refusal>
    ensures same { Same cols.old cols.new }
    ensures outcome { trimmed_left (trimmed_told p result) (held cols.new) ≡ clear_each xs.now p (held cols.old) }
{
    let gone = judge_trims(p, xs, &cols.reading())?;
    Ok(cleared(p, gone, cols))
}
