// `reindex`: every link gets the number that a list has for it.
ghost use Rattle.std.specs.Prelude.{◌≡◌, true, map, ◌<◌, length};
ghost use Rattle.column.specs.Records.{records, record_at, put_record, four};
ghost use Rattle.link.specs.Lists.{first_no};
ghost use Rattle.link.specs.Questions as questions;
ghost use Rattle.answer.specs.Answers.{answer};
ghost use Rattle.path.specs.Records.{lent, held, Same};
ghost use Rattle.path.specs.Answers.{left, told};
ghost use Rattle.path_reindex.specs.Reindex as spec;
ghost use Rattle.path_reindex.specs.Fours as fours;

use answer::{Question, Refusal};
use column::{Four, get, put_record, record_at};
use link::questions::point_number;
use path::columns::{PathColumns, PathColumnsMut};
use path::path_tpc::PathTpc;
use path::questions::path_answer;

// Question 4 of a link number: the list has a number for it, and not 0.
fn renumbers(new: &[u32], n: u32) -> bool
    ensures { result ≡ spec.renumbers new.now n }
{
    get(new, n as usize) != 0
}

// Question 4 of the first `count` link points.
fn renumber_question(numbers: &[u32], count: usize, new: &[u32]) -> Option<usize>
    ensures { result ≡ first_no (map (spec.renumbers new.now) (questions.numbers true numbers.now count)) }
{
    (0..count).find(|&k| !renumbers(new, point_number(numbers, k)))
}

// Questions 1, 2 and 4.
fn reindex_answer(p: PathTpc, new: &[u32], cols: &PathColumns) -> Result<(), Refusal>
    ensures { answer result ≡ spec.reindex_answer new.now p (lent cols.now) }
{
    path_answer(p, true, cols)?;
    Question::InTable.ask_each(renumber_question(cols.numbers, p.link_count - 1, new))
}

// Another link number for link point i.
fn put_number(numbers: &mut [u32], i: usize, number: u32)
    ensures { numbers.new ≡ put_record four numbers.old i (fours.with_fourth number (record_at four numbers.old i)) }
{
    let q = record_at::<Four>(&*numbers, i);
    put_record(&mut *numbers, i, Four(q.0, q.1, q.2, number));
}

// The new number of each of n link points, in one pass over a column that holds these points and zeros past them.
fn renumber(numbers: &mut [u32], n: usize, new: &[u32])
    requires n_nonzero { 0 < n }
    requires numbers_value { numbers.old ≡ fours.fours_column (length numbers.old) (records four n numbers.old) }
    ensures { numbers.new ≡ fours.fours_column (length numbers.old)
        (fours.renumbered_fours new.now (records four n numbers.old)) }
{
    let end = n - 1;
    let mut last = record_at::<Four>(&*numbers, 0).3;
    for i in 0..end {
        last = get(new, record_at::<Four>(&*numbers, i).3 as usize);
        put_number(&mut *numbers, i, last);
    }
    put_number(&mut *numbers, end, last);
}

// Other numbers for the links, the end point's the last link's.
pub fn reindex(p: PathTpc, new: &[u32], cols: &mut PathColumnsMut) -> Result<PathTpc, Refusal>
    ensures same { Same cols.old cols.new }
    ensures outcome { left (told p result) (held cols.new) ≡ spec.reindex_of new.now p (held cols.old) }
{
    reindex_answer(p, new, &cols.reading())?;
    cols.zero_rest(p);
    renumber(&mut *cols.numbers, p.link_count, new);
    Ok(p)
}
