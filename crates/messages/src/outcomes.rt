// A refusal in words.
use answer::{Question, Refusal};
use std::fmt;

// A refusal: question, place, and what the question asks.
#[derive(Clone, Copy)]
pub struct Refused(pub Refusal);

// Its question and its place alone.
#[derive(Clone, Copy)]
pub struct RefusedBy(pub Refusal);

// What a question asks, for a call that it refused.
pub fn asks(question: Question) -> &'static str {
    match question {
        Question::Finite => {
            "a number is not finite, the train has no length, or a top speed is below 0"
        }
        Question::Sound => "the path is not sound, or there is none yet",
        Question::Open => "the path is finished",
        Question::InTable => "no link of that number is in the table",
        Question::Follows => "the link does not follow the one before it",
        Question::Formed => "the link is not well formed",
        Question::HasSet => "the link has no speed set for this train",
        Question::Results => {
            "a sum is too large to be a number, or a link has no length at that distance"
        }
        Question::Room => "there is no room for the records",
        Question::InRange => "the offset, or the link, is out of range",
        Question::Hint => "the index is not allowed",
        Question::Drops => "the path has no link",
    }
}

impl fmt::Display for RefusedBy {
    fn fmt<W: fmt::Write>(&self, f: &mut fmt::Formatter<W>) -> fmt::Result {
        let Refusal { question, place } = self.0;
        write!(
            f,
            "refused by question {} at place {place}",
            question.number()
        )
    }
}

impl fmt::Display for Refused {
    fn fmt<W: fmt::Write>(&self, f: &mut fmt::Formatter<W>) -> fmt::Result {
        write!(f, "{}: {}", RefusedBy(self.0), asks(self.0.question))
    }
}
