// Questions 4 to 7 of the links that a list, or link points, name.
ghost use Rattle.std.specs.Prelude.{◌≡◌};
ghost use Rattle.link.specs.Table.{table};
ghost use Rattle.link.specs.Questions.{numbers_in};
ghost use Rattle.answer.specs.Answers.{answer};
ghost use Rattle.path.specs.Answers.{links_answer};

use answer::{Question, Refusal};
use link::network::Network;
use link::questions::Numbers;
use link::train_params::TrainType;

// Question 5 was answered with fifth.
pub fn links_answer(
    numbers: &Numbers,
    fifth: Option<usize>,
    network: &Network,
    kind: TrainType,
) -> Result<(), Refusal>
    ensures { answer result ≡ links_answer (table network.now) kind fifth (numbers_in numbers.now) }
{
    Question::InTable.ask_each(network.question4(numbers))?;
    Question::Follows.ask_each(fifth)?;
    let formed = network.question6(numbers);
    Question::Formed.ask_each(formed)?;
    Question::HasSet.ask_each(network.question7(numbers, kind))
}
