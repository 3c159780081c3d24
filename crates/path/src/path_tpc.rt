// The path's record: how many records its columns hold, and whether it is finished. A value apart from the columns, since C passes the two apart.
ghost use Rattle.std.specs.Prelude.{◌≡◌};
ghost use Rattle.path.specs.Answers as spec;

use answer::{Answer, Refusal};

#[repr(C)]
#[derive(Clone, Copy)]
pub struct PathTpc {
    pub link_count: usize,
    pub grade_count: usize,
    pub curve_count: usize,
    pub speed_count: usize,
    pub power_count: usize,
    pub is_finished: bool,
}

// What a call that may change a path answers, and the path's record after it.
#[repr(C)]
#[derive(Clone, Copy)]
pub struct PathAnswer {
    pub answer: Answer,
    pub path: PathTpc,
}

impl PathAnswer {
    // What C is told of a call on the path p.
    pub fn told(p: PathTpc, r: Result<PathTpc, Refusal>) -> PathAnswer
        ensures { result ≡ spec.told p r }
    {
        match r {
            Ok(path) => PathAnswer {
                answer: Answer::from(Ok(())),
                path,
            },
            Err(e) => PathAnswer {
                answer: Answer::from(e),
                path: p,
            },
        }
    }
}
