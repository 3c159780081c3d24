// What a call answers: done, or the question that it answered with no and the place where it did.
#![tactic(auto)]

ghost use Rattle.std.specs.Prelude.{◌≡◌};
ghost use Rattle.answer.specs.Answers as spec;

// The questions, in the order of their numbers.
#[derive(Clone, Copy, Debug, PartialEq, Eq)]
pub enum Question {
    Finite, // 1: the numbers are finite
    Sound, // 2: record and columns belong together
    Open, // 3: the path is not finished
    InTable, // 4: there is such a link
    Follows, // 5: the link follows the one before it
    Formed, // 6: the link is well formed
    HasSet, // 7: the link has a speed set for the train
    Results, // 8: the results are finite
    Room, // 9: the columns have room
    InRange, // 10: the offset is on the path or in the list
    Hint, // 11: the search can start from the index
    Drops, // 12: there is a link to drop
}

// The question that was answered with no, and where.
#[derive(Clone, Copy, Debug, PartialEq, Eq)]
pub struct Refusal {
    pub question: Question,
    pub place: usize,
}

// The same as C is told it: done is 0, place 0.
#[repr(C)]
#[derive(Clone, Copy, Debug, PartialEq, Eq)]
pub struct Answer {
    pub number: u32,
    pub place: usize,
}

impl Question {
    // Its number, from 1.
    pub fn number(self) -> u32
        ensures { result ≡ spec.number self }
    {
        match self {
            Question::Finite => 1,
            Question::Sound => 2,
            Question::Open => 3,
            Question::InTable => 4,
            Question::Follows => 5,
            Question::Formed => 6,
            Question::HasSet => 7,
            Question::Results => 8,
            Question::Room => 9,
            Question::InRange => 10,
            Question::Hint => 11,
            Question::Drops => 12,
        }
    }

    // A no at a place.
    pub fn refused_at<T>(self, place: usize) -> Result<T, Refusal>
        ensures { result ≡ spec.refused_at self place }
    {
        Err(Refusal {
            question: self,
            place,
        })
    }

    // A no at place 0.
    pub fn refused<T>(self) -> Result<T, Refusal>
        ensures { result ≡ spec.refused_at self 0 }
    {
        self.refused_at(0)
    }

    // The question asked once: a no has place 0.
    pub fn ask(self, yes: bool) -> Result<(), Refusal>
        ensures { result ≡ spec.asked self yes }
    {
        if yes { Ok(()) } else { self.refused() }
    }

    // The question put to each position: the first that is answered with no.
    pub fn ask_each(self, first_no: Option<usize>) -> Result<(), Refusal>
        ensures { result ≡ spec.asked_each self first_no }
    {
        match first_no {
            None => Ok(()),
            Some(place) => self.refused_at(place),
        }
    }
}

impl From<Refusal> for Answer {
    ghost from_gives = { λ e r. r ≡ spec.refusal e };

    fn from(e: Refusal) -> Answer {
        Answer {
            number: e.question.number(),
            place: e.place,
        }
    }
}

impl From<Result<(), Refusal>> for Answer {
    ghost from_gives = { λ e r. r ≡ spec.answer e };

    fn from(r: Result<(), Refusal>) -> Answer {
        match r {
            Ok(()) => Answer {
                number: 0,
                place: 0,
            },
            Err(e) => Answer::from(e),
        }
    }
}
