// Questions 1 and 2 of a path in turn.
ghost use Rattle.std.specs.Prelude.{◌≡◌};
ghost use Rattle.path.specs.Records.{lent};
ghost use Rattle.answer.specs.Answers.{answer};
ghost use Rattle.path.specs.Sound.{path_answer};

use crate::columns::PathColumns;
use crate::finite::path_finite;
use crate::path_tpc::PathTpc;
use crate::sound::path_sound;
use answer::{Question, Refusal};

// Questions 1 and 2 of a path; also is question 1 of the call's other numbers.
pub fn path_answer(p: PathTpc, also: bool, cols: &PathColumns) -> Result<(), Refusal>
    ensures { answer result ≡ path_answer also p (lent cols.now) }
{
    Question::Finite.ask(also)?;
    Question::Finite.ask(path_finite(p, cols))?;
    Question::Sound.ask(path_sound(p, cols))
}
