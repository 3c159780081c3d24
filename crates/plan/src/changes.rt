// The calls that may change the path, as lines of a route.
use answer::Refusal;
use link::network::Network;
use link::train_params::TrainParams;
use path::columns::PathColumnsMut;
use path::path_tpc::PathTpc;
use path_clear::clear::clear;
use path_ends::finish::finish;
use path_ends::new::new;
use path_extend::extend::extend;
use path_reindex::reindex::reindex;
use path_speeds::recalc_speeds::recalc_speeds;
use route::kinds::Call;
use si::Length;

// What a call leaves: the path's record, and the counts of the links that went.
#[derive(Clone, Copy)]
pub struct Step {
    pub path: PathTpc,
    pub grades: usize,
    pub curves: usize,
}

impl From<PathTpc> for Step {
    fn from(path: PathTpc) -> Step {
        Step {
            path,
            grades: 0,
            curves: 0,
        }
    }
}

// `clear`, with the counts of the link that went last.
fn trimmed(p: PathTpc, x: Length, cols: &mut PathColumnsMut) -> Result<Step, Refusal> {
    let left = clear(p, x, cols)?;
    Ok(Step {
        path: left.path,
        grades: left.dropped.grade_count,
        curves: left.dropped.curve_count,
    })
}

// A call, with the offset or the list that it is given.
pub fn change(
    call: Call,
    train: TrainParams,
    x: Length,
    list: &[u32],
    p: PathTpc,
    cols: &mut PathColumnsMut,
    network: &Network,
) -> Result<Step, Refusal> {
    let path = match call {
        Call::New => new(train, cols)?,
        Call::Extend => extend(p, train, list, cols, network)?,
        Call::Clear => return trimmed(p, x, cols),
        Call::Finish => finish(p, cols)?,
        Call::Recalculate => recalc_speeds(p, train, cols, network)?,
        _ => reindex(p, list, cols)?,
    };
    Ok(Step::from(path))
}
