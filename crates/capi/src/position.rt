// The links where a train stands: the library's call by value under a C name, with the same equations.
ghost use Rattle.std.specs.Prelude.{◌≡◌};
ghost use Rattle.path.specs.Records.{columns};
ghost use Rattle.train.specs.Locate.{locate_of, placed};

use path::columns::PathColumns;
use path::path_tpc::PathTpc;
use train::set_link_and_offset::{StateAnswer, with_link_and_offset};
use train::train_state::TrainState;

// `set_link_and_offset`: the record with its three link fields written.
#[unsafe(no_mangle)]
pub extern "C" fn mochaspit_set_link_and_offset(
    state: TrainState,
    path: PathTpc,
    offsets: &[f64],
    numbers: &[u32],
    grades: &[f64],
    curves: &[f64],
    speeds: &[f64],
    powers: &[f64],
    districts: &[u32],
) -> StateAnswer
    ensures { (result.answer ≡ (locate_of state path (columns offsets.now numbers.now grades.now curves.now speeds.now powers.now districts.now)).answer) ×
        (result.state ≡ placed state (locate_of state path (columns offsets.now numbers.now grades.now curves.now speeds.now powers.now districts.now))) }
{
    let cols = PathColumns {
        offsets,
        numbers,
        grades,
        curves,
        speeds,
        powers,
        districts,
    };
    StateAnswer::told(state, with_link_and_offset(state, path, &cols))
}
