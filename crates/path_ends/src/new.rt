// `new`: a path without links.
ghost use Rattle.std.specs.Prelude.{◌≡◌};
ghost use Rattle.path.specs.Records.{held, Same};
ghost use Rattle.path.specs.Answers.{left, told};
ghost use Rattle.path_ends.specs.New.{start, no_path, new_of};

use answer::{Question, Refusal};
use column::{Two, put_record};
use link::train_params::TrainParams;
use path::columns::PathColumnsMut;
use path::finite::train_finite;
use path::path_tpc::PathTpc;
use path::sound::within_bounds;

// The record of a path without links.
fn start_record() -> PathTpc
    ensures { result ≡ start }
{
    PathTpc {
        link_count: 1,
        grade_count: 1,
        curve_count: 1,
        speed_count: 1,
        power_count: 0,
        is_finished: false,
    }
}

// What goes with the answer of a refused `new`: no path.
pub fn no_path() -> PathTpc
    ensures { result ≡ no_path }
{
    PathTpc {
        link_count: 0,
        grade_count: 0,
        curve_count: 0,
        speed_count: 0,
        power_count: 0,
        is_finished: false,
    }
}

// A path with one link point, grade and curve record, all zero, and the speed point (0, top speed).
pub fn new(train: TrainParams, cols: &mut PathColumnsMut) -> Result<PathTpc, Refusal>
    ensures same { Same cols.old cols.new }
    ensures outcome { left (told no_path result) (held cols.new) ≡ new_of train (held cols.old) }
{
    let path = start_record();
    Question::Finite.ask(train_finite(train))?;
    Question::Room.ask(within_bounds(path, &cols.reading()))?;
    column::zero_from(&mut *cols.offsets, 0);
    column::zero_from(&mut *cols.numbers, 0);
    column::zero_from(&mut *cols.grades, 0);
    column::zero_from(&mut *cols.curves, 0);
    column::zero_from(&mut *cols.speeds, 0);
    column::zero_from(&mut *cols.powers, 0);
    column::zero_from(&mut *cols.districts, 0);
    put_record(&mut *cols.speeds, 0, Two(0.0, train.speed_max.0));
    Ok(path)
}
