// A file's name as text of a picture: what XML does not take as it is, written so that it does.
use std::fmt::{self, Display};

// A text, with a question mark for each byte where XML takes no character.
#[derive(Clone, Copy)]
struct Taken<'a>(&'a [u8]);

// A character as XML takes it.
#[derive(Clone, Copy)]
struct Character(char);

impl Display for Character {
    fn fmt<W: fmt::Write>(&self, f: &mut fmt::Formatter<W>) -> fmt::Result {
        match self.0 {
            '&' => write!(f, "&amp;"),
            '<' => write!(f, "&lt;"),
            '>' => write!(f, "&gt;"),
            '"' => write!(f, "&quot;"),
            '\u{0}'..='\u{1f}' | '\u{7f}' => write!(f, "?"),
            '\u{fffe}' | '\u{ffff}' => write!(f, "???"),
            c => write!(f, "{c}"),
        }
    }
}

impl Display for Taken<'_> {
    fn fmt<W: fmt::Write>(&self, f: &mut fmt::Formatter<W>) -> fmt::Result {
        for chunk in self.0.utf8_chunks() {
            for c in chunk.valid().chars() {
                write!(f, "{}", Character(c))?;
            }
            for _ in chunk.invalid() {
                write!(f, "?")?;
            }
        }
        Ok(())
    }
}

// A text without a first byte that goes on with a character.
fn past(text: &[u8]) -> &[u8] {
    match text {
        [128..=191, rest @ ..] => rest,
        _ => text,
    }
}

// A name; of a long one its last 100 bytes.
#[derive(Clone, Copy)]
pub struct Name<'a>(pub &'a [u8]);

impl Display for Name<'_> {
    fn fmt<W: fmt::Write>(&self, f: &mut fmt::Formatter<W>) -> fmt::Result {
        let name = self.0;
        let n = name.len();
        if n <= 100 {
            return write!(f, "{}", Taken(name));
        }
        write!(f, "...{}", Taken(past(past(past(&name[n - 100..])))))
    }
}
