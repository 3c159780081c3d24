// The links where a train's front and back stand, by value.
ghost use Rattle.std.specs.Prelude.{◌≡◌, cond, false, ◌<◌};
ghost use Rattle.std.specs.Float.Ieee.Scale.{finite};
ghost use Rattle.path.specs.Records.{lent, link_points};
ghost use Rattle.path.specs.Answers.{ask};
ghost use Rattle.train.specs.Locate as spec;

use crate::train_state::{TrainState, state_finite};
use answer::{Answer, Question, Refusal};
use path::columns::PathColumns;
use path::link_point::{LinkPoint, link_point_at};
use path::path_tpc::PathTpc;
use path::questions::path_answer;
use si::Length;

// The three link fields of a position.
#[derive(Clone, Copy)]
pub struct LinkFields {
    pub link_idx_front: u32,
    pub link_idx_back: u32,
    pub offset_in_link: Length,
}

// An answer, and the three link fields of a position that go with it.
#[derive(Clone, Copy)]
pub struct Located {
    pub answer: Answer,
    pub link_idx_front: u32,
    pub link_idx_back: u32,
    pub offset_in_link: Length,
}

impl Located {
    // What is told of a position that was located: where that was refused, the fields that it came with.
    pub fn told(before: TrainState, r: Result<LinkFields, Refusal>) -> Located
        ensures { result ≡ spec.located_told before r }
    {
        match r {
            Ok(found) => Located {
                answer: Answer::from(Ok(())),
                link_idx_front: found.link_idx_front,
                link_idx_back: found.link_idx_back,
                offset_in_link: found.offset_in_link,
            },
            Err(e) => Located {
                answer: Answer::from(e),
                link_idx_front: before.link_idx_front,
                link_idx_back: before.link_idx_back,
                offset_in_link: before.offset_in_link,
            },
        }
    }
}

// The last of n link points at or before x; the first where none is.
fn point_behind(cols: &PathColumns, n: usize, x: Length) -> LinkPoint
    requires { 0 < n }
    ensures { result ≡ spec.point_behind x.0 (link_points n cols.now.offsets.now cols.now.numbers.now) }
{
    for i in (1..n).rev() {
        if !(x.0 < column::get(cols.offsets, i)) {
            return link_point_at(cols.offsets, cols.numbers, i);
        }
    }
    link_point_at(cols.offsets, cols.numbers, 0)
}

// Question 10: front and back are not before the first of n link points.
fn not_before_path(s: TrainState, n: usize, cols: &PathColumns) -> bool
    requires { 0 < n }
    ensures { result ≡ spec.not_before_path s (link_points n cols.now.offsets.now cols.now.numbers.now) }
{
    let first = column::get(cols.offsets, 0);
    (first <= s.offset.0) & (first <= s.offset_back.0)
}

// The three link fields among n link points, once questions 1, 2 and 10 are answered with yes: question 8, and then the fields.
fn located_among(s: TrainState, n: usize, cols: &PathColumns) -> Result<LinkFields, Refusal>
    requires { 0 < n }
    ensures { spec.located_told s result ≡ cond
        (finite (spec.offset_in_link_of s (link_points n cols.now.offsets.now cols.now.numbers.now)))
        (spec.located_at s (link_points n cols.now.offsets.now cols.now.numbers.now)) (spec.located_as_before s (ask 8 false)) }
{
    let front = point_behind(cols, n, s.offset);
    let in_link = s.offset.0 - front.offset.0;
    Question::Results.ask(ieee::is_finite(in_link))?;
    let back = point_behind(cols, n, s.offset_back);
    Ok(LinkFields {
        link_idx_front: front.link_idx,
        link_idx_back: back.link_idx,
        offset_in_link: Length(in_link),
    })
}

// Questions 1, 2, 10 and 8, and the three link fields.
pub fn locate(state: TrainState, path: PathTpc, cols: &PathColumns) -> Result<LinkFields, Refusal>
    ensures { spec.located_told state result ≡ spec.locate_of state path (lent cols.now) }
{
    path_answer(path, state_finite(state), cols)?;
    Question::InRange.ask(not_before_path(state, path.link_count, cols))?;
    located_among(state, path.link_count, cols)
}
