// The grade or curve records of a link, handed back as that part of the caller's column.
ghost use Rattle.std.specs.Prelude.{◌≡◌, ◌+◌, ◌<◌, ◌≤◌};
ghost use Rattle.answer.specs.Answers.{answer};
ghost use Rattle.path.specs.Records.{lent, link_points};
ghost use Rattle.path.specs.Sound.{count_of, is_curves, total};
ghost use Rattle.path_link_records.specs.LinkRecords as spec;

use answer::{Answer, Question, Refusal};
use path::columns::PathColumns;
use path::lines::Lines;
use path::link_point::{add_counts, count_of, link_point_at};
use path::path_tpc::PathTpc;
use path::questions::path_answer;

// A range of a column's entries.
#[repr(C)]
#[derive(Clone, Copy)]
pub struct Range {
    pub from: usize,
    pub len: usize,
}

// An answer with the range of a link's records, as C reads it; nothing from 0 for a refusal.
#[repr(C)]
#[derive(Clone, Copy)]
pub struct RangeAnswer {
    pub answer: Answer,
    pub range: Range,
}

impl From<Result<Range, Refusal>> for RangeAnswer {
    ghost from_gives = { λ found r. r ≡ spec.range_told found };

    fn from(found: Result<Range, Refusal>) -> RangeAnswer {
        match found {
            Ok(range) => RangeAnswer {
                answer: Answer::from(Ok(())),
                range,
            },
            Err(e) => RangeAnswer {
                answer: Answer::from(e),
                range: Range { from: 0, len: 0 },
            },
        }
    }
}

// Questions 1, 2 and 10.
fn part_answer(p: PathTpc, k: usize, cols: &PathColumns) -> Result<(), Refusal>
    ensures { answer result ≡ spec.part_answer k p (lent cols.now) }
{
    path_answer(p, true, cols)?;
    Question::InRange.ask(k < p.link_count - 1)
}

// Where the records of link k lie in their column.
fn record_range(offsets: &[f64], numbers: &[u32], k: usize, lines: Lines) -> Range
    requires k_bound { k < 1025 }
    requires numbers_bound { total (count_of (is_curves lines)) (link_points (k + 1) offsets.now numbers.now) ≤ 16384 }
    ensures { result ≡ spec.range_of (count_of (is_curves lines)) k (link_points (k + 1) offsets.now numbers.now) }
{
    let before = add_counts(offsets, numbers, k);
    let own = link_point_at(offsets, numbers, k);
    let from = 3 * count_of(before, lines);
    let len = 3 * count_of(own, lines);
    Range { from, len }
}

// The column of a kind of records.
fn column_of<'a>(lines: Lines, cols: &PathColumns<'_, 'a, 'a>) -> &'a [f64]
    ensures { result.now ≡ spec.column_of (is_curves lines) (lent cols.now) }
{
    match lines {
        Lines::Grades => cols.grades,
        Lines::Curves => cols.curves,
    }
}

// The records of link k, grades or curves, as that part of col, their column.
fn link_part<'a>(
    col: &'a [f64],
    lines: Lines,
    p: PathTpc,
    k: usize,
    cols: &PathColumns,
) -> Result<&'a [f64], Refusal>
    requires own { col.now ≡ spec.column_of (is_curves lines) (lent cols.now) }
    ensures { spec.part_told result ≡ spec.link_records_of (is_curves lines) k p (lent cols.now) }
{
    part_answer(p, k, cols)?;
    let r = record_range(cols.offsets, cols.numbers, k, lines);
    let from = r.from;
    let to = from + r.len;
    Ok(&col[from..to])
}

// The records of link k, grades or curves, as that part of their column.
pub fn link_records<'a>(
    lines: Lines,
    p: PathTpc,
    k: usize,
    cols: &PathColumns<'_, 'a, 'a>,
) -> Result<&'a [f64], Refusal>
    ensures { spec.part_told result ≡ spec.link_records_of (is_curves lines) k p (lent cols.now) }
{
    link_part(column_of(lines, cols), lines, p, k, cols)
}

// The grades of link k. While the part is held the grades alone are lent.
pub fn link_grades<'g>(
    p: PathTpc,
    k: usize,
    cols: &PathColumns<'_, 'g, '_>,
) -> Result<&'g [f64], Refusal>
    ensures { spec.part_told result ≡ spec.link_grades_of k p (lent cols.now) }
{
    link_part(cols.grades, Lines::Grades, p, k, cols)
}

// The curves of link k. While the part is held the curves alone are lent.
pub fn link_curves<'c>(
    p: PathTpc,
    k: usize,
    cols: &PathColumns<'_, '_, 'c>,
) -> Result<&'c [f64], Refusal>
    ensures { spec.part_told result ≡ spec.link_curves_of k p (lent cols.now) }
{
    link_part(cols.curves, Lines::Curves, p, k, cols)
}

// Where the records of link k lie in the column of grades or of curves.
pub fn link_range(lines: Lines, p: PathTpc, k: usize, cols: &PathColumns) -> Result<Range, Refusal>
    ensures { spec.range_told result ≡ spec.link_range_of (is_curves lines) k p (lent cols.now) }
{
    part_answer(p, k, cols)?;
    Ok(record_range(cols.offsets, cols.numbers, k, lines))
}
