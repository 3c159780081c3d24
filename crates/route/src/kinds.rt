// What a line is by its first field.
ghost use Rattle.std.specs.Prelude.{◌≡◌};
ghost use Rattle.route.specs.Codes as spec;

use crate::fields::{bytes_at, word_in};

// A line of the train or of the link table.
#[derive(Clone, Copy, PartialEq, Eq, Debug)]
pub enum TableLine {
    Train,
    Link,
    Elev,
    Heading,
    Power,
    Set,
    When,
    Limit,
}

// A line that calls the planner.
#[derive(Clone, Copy, PartialEq, Eq, Debug)]
pub enum Call {
    New,
    Extend,
    Clear,
    Finish,
    Recalculate,
    Reindex,
    Locate,
    Resistance,
    Grades,
    Curves,
    Powers,
    Show,
    Posted,
}

impl Call {
    // Whether a call reads the path; the others may change it.
    pub fn is_reading(self) -> bool
        ensures { result ≡ spec.is_reading self }
    {
        match self {
            Call::New
            | Call::Extend
            | Call::Clear
            | Call::Finish
            | Call::Recalculate
            | Call::Reindex => false,
            Call::Locate
            | Call::Resistance
            | Call::Grades
            | Call::Curves
            | Call::Powers
            | Call::Show
            | Call::Posted => true,
        }
    }
}

#[derive(Clone, Copy, PartialEq, Eq, Debug)]
pub enum Kind {
    Blank,
    Table(TableLine),
    Call(Call),
    Unknown,
}

const KEYWORDS: [(&[u8], Kind); 21] = [
    (b"train", Kind::Table(TableLine::Train)),
    (b"link", Kind::Table(TableLine::Link)),
    (b"elev", Kind::Table(TableLine::Elev)),
    (b"heading", Kind::Table(TableLine::Heading)),
    (b"power", Kind::Table(TableLine::Power)),
    (b"set", Kind::Table(TableLine::Set)),
    (b"when", Kind::Table(TableLine::When)),
    (b"limit", Kind::Table(TableLine::Limit)),
    (b"new", Kind::Call(Call::New)),
    (b"extend", Kind::Call(Call::Extend)),
    (b"clear", Kind::Call(Call::Clear)),
    (b"finish", Kind::Call(Call::Finish)),
    (b"recalculate", Kind::Call(Call::Recalculate)),
    (b"reindex", Kind::Call(Call::Reindex)),
    (b"locate", Kind::Call(Call::Locate)),
    (b"resistance", Kind::Call(Call::Resistance)),
    (b"grades", Kind::Call(Call::Grades)),
    (b"curves", Kind::Call(Call::Curves)),
    (b"powers", Kind::Call(Call::Powers)),
    (b"show", Kind::Call(Call::Show)),
    (b"posted", Kind::Call(Call::Posted)),
];

// The kind of the line at `at`.
pub fn kind_of(text: &[u8], at: usize) -> Kind
    ensures { result ≡ spec.kind_of text.now at }
{
    let w = bytes_at(text, at, 0);
    if w.is_empty() {
        return Kind::Blank;
    }
    word_in(w, &KEYWORDS).unwrap_or(Kind::Unknown)
}
