// What each field of a line has to be, by its kind.
ghost use Rattle.std.specs.Prelude.{◌≡◌, ◌↔◌};
ghost use Rattle.route.specs.Forms as spec;

use crate::kinds::{Call, TableLine};

// What a field has to be.
#[derive(Clone, Copy, PartialEq, Eq, Debug)]
pub enum Wanted {
    Number,
    Whole,
    TrainType,
    SetPlace,
    Tail,
    Figure,
    Comparison,
    Direction,
}

const TRAIN: [Wanted; 9] = [
    Wanted::Number,
    Wanted::Number,
    Wanted::Number,
    Wanted::Number,
    Wanted::Whole,
    Wanted::TrainType,
    Wanted::Number,
    Wanted::Number,
    Wanted::Number,
];

const LINK: [Wanted; 6] = [
    Wanted::Whole,
    Wanted::Number,
    Wanted::Whole,
    Wanted::Whole,
    Wanted::Whole,
    Wanted::Whole,
];

const POWER: [Wanted; 4] = [
    Wanted::Number,
    Wanted::Number,
    Wanted::Number,
    Wanted::Whole,
];

const RESISTANCE: [Wanted; 4] = [
    Wanted::Direction,
    Wanted::Number,
    Wanted::Number,
    Wanted::Number,
];

// Field k of a form, from 1; nothing where it has fewer.
fn asked_in(form: &[Wanted], k: usize) -> Option<Wanted> {
    form.get(k.checked_sub(1)?).copied()
}

impl TableLine {
    // What the fields behind the line's word have to be.
    pub fn form(self) -> &'static [Wanted]
        ensures { result.now ≡ spec.table_form self }
    {
        match self {
            TableLine::Train => &TRAIN,
            TableLine::Link => &LINK,
            TableLine::Elev | TableLine::Heading => &[Wanted::Number, Wanted::Number],
            TableLine::Power => &POWER,
            TableLine::Set => &[Wanted::SetPlace, Wanted::Tail],
            TableLine::When => &[Wanted::Figure, Wanted::Comparison, Wanted::Number],
            TableLine::Limit => &[Wanted::Number, Wanted::Number, Wanted::Number],
        }
    }

    // What field k, from 1, has to be; nothing where there is to be none.
    pub fn asked(self, k: usize) -> Option<Wanted> {
        asked_in(self.form(), k)
    }
}

impl Call {
    // Whether a list of whole numbers follows the call's word.
    pub fn has_list(self) -> bool
        ensures { result ≡ spec.has_list self }
    {
        matches!(self, Call::Extend | Call::Reindex)
    }

    // What the fields behind the word of a call without a list have to be.
    pub fn form(self) -> &'static [Wanted]
        ensures { result.now ≡ spec.call_form self }
    {
        match self {
            Call::Clear | Call::Posted => &[Wanted::Number],
            Call::Locate => &[Wanted::Number, Wanted::Number],
            Call::Resistance => &RESISTANCE,
            Call::Grades | Call::Curves => &[Wanted::Whole],
            _ => &[],
        }
    }

    // What field k, from 1, has to be; nothing where there is to be none.
    pub fn asked(self, k: usize) -> Option<Wanted> {
        if self.has_list() {
            return Some(Wanted::Whole);
        }
        asked_in(self.form(), k)
    }
}
