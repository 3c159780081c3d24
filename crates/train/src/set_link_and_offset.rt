// `set_link_and_offset`: the position record is lent, and its three link fields are written.
ghost use Rattle.std.specs.Prelude.{◌≡◌};
ghost use Rattle.answer.specs.Answers.{answer};
ghost use Rattle.path.specs.Records.{lent};
ghost use Rattle.train.specs.Locate.{locate_of, placed, state_told};

use crate::locate::locate;
use crate::train_state::TrainState;
use answer::{Answer, Refusal};
use path::columns::PathColumns;
use path::path_tpc::PathTpc;

// A position, and the answer of the call that handed it back, as C reads them.
#[repr(C)]
#[derive(Clone, Copy)]
pub struct StateAnswer {
    pub answer: Answer,
    pub state: TrainState,
}

impl StateAnswer {
    // What C is told of a call on a position: a refused one hands back the position that came.
    pub fn told(before: TrainState, r: Result<TrainState, Refusal>) -> StateAnswer
        ensures { result ≡ state_told before r }
    {
        match r {
            Ok(state) => StateAnswer {
                answer: Answer::from(Ok(())),
                state,
            },
            Err(e) => StateAnswer {
                answer: Answer::from(e),
                state: before,
            },
        }
    }
}

// Writes the links where front and back stand, and the front's offset in its link; a refused call leaves the record as it came.
pub fn set_link_and_offset(
    state: &mut TrainState,
    path: PathTpc,
    cols: &PathColumns,
) -> Result<(), Refusal>
    ensures answer { answer result ≡ (locate_of state.old path (lent cols.now)).answer }
    ensures state { state.new ≡ placed state.old (locate_of state.old path (lent cols.now)) }
{
    let found = locate(*state, path, cols)?;
    state.link_idx_front = found.link_idx_front;
    state.link_idx_back = found.link_idx_back;
    state.offset_in_link = found.offset_in_link;
    Ok(())
}

// The same by value: a local is lent, and handed back.
pub fn with_link_and_offset(
    mut state: TrainState,
    path: PathTpc,
    cols: &PathColumns,
) -> Result<TrainState, Refusal>
    ensures answer { (state_told state result).answer ≡ (locate_of state path (lent cols.now)).answer }
    ensures state { (state_told state result).state ≡ placed state (locate_of state path (lent cols.now)) }
{
    set_link_and_offset(&mut state, path, cols)?;
    Ok(state)
}
