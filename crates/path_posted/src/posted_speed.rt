// `posted_speed`: the speed of the last speed point at or before an offset.
ghost use Rattle.std.specs.Prelude.{◌≡◌};
ghost use Rattle.answer.specs.Answers.{answer};
ghost use Rattle.path.specs.Records.{lent};
ghost use Rattle.path_posted.specs.Posted as spec;

use answer::{Answer, Question, Refusal};
use path::columns::PathColumns;
use path::path_tpc::PathTpc;
use path::questions::path_answer;
use si::{Length, Velocity};
use speed::speed_point::SpeedPoints;

// An answer with a speed, as C reads it; 0 for a refusal.
#[repr(C)]
#[derive(Clone, Copy)]
pub struct PostedAnswer {
    pub answer: Answer,
    pub speed: Velocity,
}

impl From<Result<Velocity, Refusal>> for PostedAnswer {
    ghost from_gives = { λ posted r. r ≡ spec.posted_told posted };

    fn from(posted: Result<Velocity, Refusal>) -> PostedAnswer {
        match posted {
            Ok(speed) => PostedAnswer {
                answer: Answer::from(Ok(())),
                speed,
            },
            Err(e) => PostedAnswer {
                answer: Answer::from(e),
                speed: Velocity(0.0),
            },
        }
    }
}

// Questions 1, 2 and 10.
fn posted_answer(p: PathTpc, x: Length, cols: &PathColumns) -> Result<(), Refusal>
    ensures { answer result ≡ spec.posted_answer x.0 p (lent cols.now) }
{
    let finite = ieee::is_finite(x.0);
    path_answer(p, finite, cols)?;
    Question::InRange.ask(column::get(cols.offsets, 0) <= x.0)
}

// The speed posted at x.
pub fn posted_speed(p: PathTpc, x: Length, cols: &PathColumns) -> Result<Velocity, Refusal>
    ensures { spec.posted_told result ≡ spec.posted_of x.0 p (lent cols.now) }
{
    posted_answer(p, x, cols)?;
    Ok(SpeedPoints::new(cols.speeds, p.speed_count).posted_at(x))
}
