// The words of a line, and what the arguments of a call are: numbers, directions, columns, positions.
use crate::columns::{Columns, NUMBERS, Number};
use lookup::lin_search_hint::Dir;
use si::{Force, Length};
use std::alloc::{AllocError, Global};
use train::train_state::TrainState;

// Why a line has no answer.
#[derive(Debug, Drop)]
pub enum Fault {
    Unreadable,
    Memory(AllocError),
}

impl From<AllocError> for Fault {
    fn from(e: AllocError) -> Fault {
        Fault::Memory(e)
    }
}

// What words are apart by; std's blanks are more.
fn is_blank(b: u8) -> bool {
    matches!(b, b' ' | b'\t' | b'\r')
}

// The first line of a text.
pub fn first_line(text: &[u8]) -> &[u8] {
    text.split(|b| *b == b'\n').next().unwrap_or(text)
}

// A line without its comment, which goes from # to the line's end.
fn uncommented(line: &[u8]) -> &[u8] {
    line.split(|b| *b == b'#').next().unwrap_or(line)
}

// Whether a line is empty or a comment from its first byte on.
pub fn is_bare(line: &[u8]) -> bool {
    matches!(line, [] | [b'#', ..])
}

// The words of a line.
pub fn words(alloc: Global, line: &[u8]) -> Result<Vec<&[u8]>, AllocError> {
    uncommented(line)
        .split(|b| is_blank(*b))
        .filter(|w| !w.is_empty())
        .collect(alloc)
}

// Whether a line continues the one before it.
pub fn continues(line: &[u8]) -> bool {
    let first = uncommented(line)
        .split(|b| is_blank(*b))
        .find(|w| !w.is_empty());
    matches!(first, Some(b"+"))
}

// Whether a word is the colon before a row's name.
pub fn is_colon(w: &[u8]) -> bool {
    matches!(w, b":")
}

// What stands behind the blanks of a text.
fn unblanked(text: &[u8]) -> &[u8] {
    let blanks = text.iter().position(|b| !is_blank(*b));
    text.get(blanks.unwrap_or(text.len())..).unwrap_or(&[])
}

// What stands behind word k of a line and the blanks there, up to the line's end: its comment too.
pub fn behind(line: &[u8], k: usize) -> &[u8] {
    let mut rest = unblanked(line);
    for _ in 0..=k {
        let word = rest.iter().position(|b| is_blank(*b) || *b == b'#');
        rest = unblanked(rest.get(word.unwrap_or(rest.len())..).unwrap_or(&[]));
    }
    rest
}

// The arguments of a call that takes any number of them, and which word of its line the colon is; the row is the text's first line. The colon may
// stand in a line that continues the row's.
pub fn up_to_colon<'a>(alloc: Global, text: &'a [u8]) -> Result<(Vec<&'a [u8]>, usize), Fault> {
    let mut args = Vec::new(alloc);
    for (i, line) in text.split(|b| *b == b'\n').enumerate() {
        let all = words(alloc, line)?;
        if all.len() < 2 || (0 < i && !continues(line)) {
            break;
        }
        let colon = all.iter().position(|w| is_colon(w));
        args.extend_from_slice(all.get(1..colon.unwrap_or(all.len())).unwrap_or(&[]))?;
        if let Some(k) = colon {
            return Ok((args, k));
        }
    }
    Err(Fault::Unreadable)
}

// The number that a word is.
pub fn to_number<T: Number>(w: &[u8]) -> Result<T, Fault> {
    T::read(w).ok_or(Fault::Unreadable)
}

// The numbers that words are; more than a column holds cannot be read.
pub fn numbers<T: Number + Drop>(alloc: Global, ws: &[&[u8]]) -> Result<Vec<T>, Fault> {
    if NUMBERS < ws.len() {
        return Err(Fault::Unreadable);
    }
    ws.iter().map(|w| to_number::<T>(w)).try_collect(alloc)
}

pub fn length(w: &[u8]) -> Result<Length, Fault> {
    Ok(Length(to_number(w)?))
}

pub fn count(w: &[u8]) -> Result<usize, Fault> {
    Ok(to_number::<u32>(w)? as usize)
}

pub fn dir(w: &[u8]) -> Result<Dir, Fault> {
    match w {
        b"unk" => Ok(Dir::Unk),
        b"fwd" => Ok(Dir::Fwd),
        b"bwd" => Ok(Dir::Bwd),
        _ => Err(Fault::Unreadable),
    }
}

// The position TRAIN FRONT BACK. A train is a column with its length and its weight.
pub fn state(
    columns: &Columns,
    train: &[u8],
    front: &[u8],
    back: &[u8],
) -> Result<TrainState, Fault> {
    let train = columns.line(train)?;
    Ok(TrainState {
        offset: length(front)?,
        offset_back: length(back)?,
        length: Length(column::get(train, 0)),
        weight_static: Force(column::get(train, 1)),
        link_idx_front: 0,
        link_idx_back: 0,
        offset_in_link: Length(0.0),
    })
}
