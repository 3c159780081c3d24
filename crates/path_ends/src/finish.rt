// `finish`: a grade and a curve record at +infinity close a path.
ghost use Rattle.std.specs.Prelude.{◌≡◌, ◌-◌, ◌<◌, ◌≤◌};
ghost use Rattle.column.specs.Records.{record_at, put_record};
ghost use Rattle.lookup.specs.Coeff.{triple};
ghost use Rattle.answer.specs.Answers.{answer};
ghost use Rattle.path.specs.Records.{lent, held, Same};
ghost use Rattle.path.specs.Answers.{left, told};
ghost use Rattle.path_ends.specs.Finish.{closing_after, closed_record, finish_answer, finish_of};

use answer::{Question, Refusal};
use lookup::path_res_coeff::{PathResCoeff, coeff_at, put_coeff};
use path::columns::{PathColumns, PathColumnsMut};
use path::path_tpc::PathTpc;
use path::questions::path_answer;
use path::sound::within;
use si::{Length, Ratio};

// The record after the m of a column: at +infinity, coefficient 0, the last one's net value. One record more than a list of the m has.
fn close(col: &mut [f64], m: usize)
    requires { 0 < m }
    ensures { col.new ≡ put_record triple col.old m (closing_after (record_at triple col.old (m - 1))) }
{
    let last = coeff_at(&*col, m - 1);
    let closing = PathResCoeff {
        offset: Length(1.0 / 0.0),
        res_coeff: Ratio(0.0),
        res_net: Length(last.res_net.0),
    };
    put_coeff(&mut *col, m, closing);
}

// Questions 1, 2, 3 and 9.
fn finish_answer(p: PathTpc, cols: &PathColumns) -> Result<(), Refusal>
    ensures { answer result ≡ finish_answer p (lent cols.now) }
{
    path_answer(p, true, cols)?;
    Question::Open.ask(!p.is_finished)?;
    let slopes = within(
        p.grade_count + 1,
        16384,
        cols.grades.len() / 3,
        cols.grades.len() / 3,
    );
    let bends = within(
        p.curve_count + 1,
        16384,
        cols.curves.len() / 3,
        cols.curves.len() / 3,
    );
    Question::Room.ask(slopes & bends)
}

// The path's record with one grade and one curve more, finished.
fn closed_record(p: PathTpc) -> PathTpc
    requires grade_count_bound { p.grade_count ≤ 16384 }
    requires curve_count_bound { p.curve_count ≤ 16384 }
    ensures { result ≡ closed_record p }
{
    PathTpc {
        link_count: p.link_count,
        grade_count: p.grade_count + 1,
        curve_count: p.curve_count + 1,
        speed_count: p.speed_count,
        power_count: p.power_count,
        is_finished: true,
    }
}

// Closes the path; every entry past the counts becomes zero.
pub fn finish(p: PathTpc, cols: &mut PathColumnsMut) -> Result<PathTpc, Refusal>
    ensures same { Same cols.old cols.new }
    ensures outcome { left (told p result) (held cols.new) ≡ finish_of p (held cols.old) }
{
    finish_answer(p, &cols.reading())?;
    cols.zero_rest(p);
    close(&mut *cols.grades, p.grade_count);
    close(&mut *cols.curves, p.curve_count);
    Ok(closed_record(p))
}
