// Columns of numbers, which lines of the text set: `reals NAME ..` and `wholes NAME ..`; lines `+ ..` behind one continue it.
use crate::fields::{Fault, continues, count, first_line, words};
use column::Entry;
use show::Whole;
use std::alloc::{AllocError, Global};
use std::collections::BTreeMap;
use std::fmt;

// A column: its numbers, and those of the line that sets it alone, with a 0 for each word there that is none.
#[derive(Drop)]
pub struct Column<T> {
    all: Vec<T>,
    line: Vec<T>,
}

// Columns by their names.
pub type Named<T> = BTreeMap<Vec<u8>, Column<T>>;

// Columns of both kinds.
#[derive(Drop)]
pub struct Sets {
    reals: Named<f64>,
    wholes: Named<u32>,
}

// Each as it was last set, and what the text's first line sets.
#[derive(Drop)]
pub struct Columns {
    first: Sets,
    last: Sets,
    set: usize,
}

// A number as it is read and printed.
pub trait Number: Entry {
    type Form: fmt::Display + Drop;

    // What a word is; none where it is no such number.
    fn read(w: &[u8]) -> Option<Self>;

    fn form(self) -> Self::Form;

    // The columns of such numbers.
    fn named(sets: &Sets) -> &Named<Self>;
}

// A decimal, 0x and 16 hex digits that are its bits, or nan, inf, -inf.
impl Number for f64 {
    type Form = Whole;

    fn read(w: &[u8]) -> Option<f64> {
        match w {
            b"nan" => Some(f64::NAN),
            b"inf" => Some(f64::INFINITY),
            b"-inf" => Some(f64::NEG_INFINITY),
            _ => decimal::number::read_number(w),
        }
    }

    fn form(self) -> Whole {
        Whole(self)
    }

    fn named(sets: &Sets) -> &Named<f64> {
        &sets.reals
    }
}

impl Number for u32 {
    type Form = u32;

    fn read(w: &[u8]) -> Option<u32> {
        decimal::whole::read_whole(w)
    }

    fn form(self) -> u32 {
        self
    }

    fn named(sets: &Sets) -> &Named<u32> {
        &sets.wholes
    }
}

// Whether a line that begins with this word sets a column.
pub fn is_kind(w: &[u8]) -> bool {
    matches!(w, b"reals" | b"wholes")
}

// The most columns of a text, and the most numbers of one and of a row.
const COLUMNS: usize = 128;

pub const NUMBERS: usize = 256;

// The most numbers that are read of a column's own line: a path's counts.
const COUNTS: usize = 5;

// The words of the column that the first line of a text sets: its own, where there are any, and those of the lines that continue it, up to one without a word.
pub fn continued<'a>(
    alloc: Global,
    own: &[&'a [u8]],
    text: &'a [u8],
) -> Result<Vec<&'a [u8]>, AllocError> {
    let mut all = Vec::from_slice(alloc, own)?;
    if own.is_empty() {
        return Ok(all);
    }
    let lines = text.split(|b| *b == b'\n').skip(1);
    for line in lines.take_while(|line| continues(line)) {
        let further = words(alloc, line)?;
        let Some([first, more @ ..]) = further.get(1..) else {
            return Ok(all);
        };
        all.push(*first)?;
        all.extend_from_slice(more)?;
    }
    Ok(all)
}

// The number that a word is, 0 where it is none.
fn or_zero<T: Number>(w: &[u8]) -> T {
    T::read(w).unwrap_or(T::zero())
}

// A column of these words, up to the first that is no number; those of its own line may go further.
fn column_of<T: Number + Drop>(
    alloc: Global,
    own: &[&[u8]],
    all: &[&[u8]],
) -> Result<Column<T>, AllocError> {
    Ok(Column {
        all: all
            .iter()
            .map_while(|w| T::read(w))
            .take(NUMBERS)
            .collect(alloc)?,
        line: own
            .iter()
            .map(|w| or_zero::<T>(w))
            .take(COUNTS)
            .collect(alloc)?,
    })
}

fn put<T: Drop>(
    alloc: Global,
    named: &mut Named<T>,
    name: &[u8],
    col: Column<T>,
) -> Result<(), AllocError> {
    let key = Vec::from_slice(alloc, name)?;
    named.insert(key, col).map_err(AllocError::from)?;
    Ok(())
}

// A column with entry k another.
fn edited<T: Number + Drop>(
    alloc: Global,
    col: &[T],
    k: usize,
    w: &[u8],
) -> Result<Column<T>, AllocError> {
    let mut all = Vec::from_slice(alloc, col)?;
    column::set(&mut all, k, or_zero(w));
    let line = Vec::new(alloc);
    Ok(Column { all, line })
}

// Whether words are numbers of a kind, and no more than a column holds.
fn are_numbers(kind: &[u8], ws: &[&[u8]]) -> bool {
    ws.len() <= NUMBERS
        && ws.iter().all(|w| match kind {
            b"reals" => f64::read(w).is_some(),
            _ => u32::read(w).is_some(),
        })
}

impl Sets {
    pub fn new(alloc: Global) -> Sets {
        Sets {
            reals: BTreeMap::new(alloc),
            wholes: BTreeMap::new(alloc),
        }
    }

    fn put(
        &mut self,
        alloc: Global,
        kind: &[u8],
        name: &[u8],
        own: &[&[u8]],
        all: &[&[u8]],
    ) -> Result<(), AllocError> {
        match kind {
            b"reals" => put(alloc, &mut self.reals, name, column_of(alloc, own, all)?),
            _ => put(alloc, &mut self.wholes, name, column_of(alloc, own, all)?),
        }
    }

    pub fn column<T: Number>(&self, name: &[u8]) -> Option<&[T]> {
        T::named(self).get(name).map(|col| col.all.as_slice())
    }
}

impl Columns {
    // No column yet; but what the first line of the text sets.
    pub fn new(alloc: Global, text: &[u8]) -> Result<Columns, AllocError> {
        let mut first = Sets::new(alloc);
        let ws = words(alloc, first_line(text))?;
        if let [kind, name, own @ ..] = ws.as_slice() {
            if is_kind(kind) {
                let all = continued(alloc, own, text)?;
                first.put(alloc, kind, name, own, &all)?;
            }
        }
        Ok(Columns {
            first,
            last: Sets::new(alloc),
            set: 0,
        })
    }

    pub fn set(
        &mut self,
        alloc: Global,
        kind: &[u8],
        name: &[u8],
        own: &[&[u8]],
        all: &[&[u8]],
    ) -> Result<(), Fault> {
        if COLUMNS <= self.set || !are_numbers(kind, all) {
            return Err(Fault::Unreadable);
        }
        self.last.put(alloc, kind, name, own, all)?;
        self.set = self.set.saturating_add(1);
        Ok(())
    }

    // Until all columns are set, what the first line sets wins, also where that line cannot be read.
    fn find<T: Number>(&self, name: &[u8]) -> Result<&Column<T>, Fault> {
        let first = T::named(&self.first).get(name);
        let col = match first {
            Some(_) if self.set < COLUMNS => first,
            _ => T::named(&self.last).get(name),
        };
        col.ok_or(Fault::Unreadable)
    }

    // The column of a name; a line that names none cannot be read.
    pub fn column<T: Number>(&self, name: &[u8]) -> Result<&[T], Fault> {
        Ok(self.find(name)?.all.as_slice())
    }

    // What the line that sets it has of a column: a train and the counts are read there, not in the lines that continue it.
    pub fn line<T: Number>(&self, name: &[u8]) -> Result<&[T], Fault> {
        Ok(self.find(name)?.line.as_slice())
    }

    // The list LIST RECORDS: its column, and how many records it is said to have.
    pub fn list(&self, list: &[u8], records: &[u8]) -> Result<(&[f64], usize), Fault> {
        Ok((self.column(list)?, count(records)?))
    }

    // Whether there is a column of this name, and the word is a number of its kind.
    fn holds<T: Number>(&self, name: &[u8], w: &[u8]) -> bool {
        self.find::<T>(name).is_ok() && T::read(w).is_some()
    }

    // The columns of a name alone, with entry k another: of both kinds where both are set, in wholes a 0 for what is no whole number.
    pub fn edited(&self, alloc: Global, name: &[u8], k: usize, w: &[u8]) -> Result<Sets, Fault> {
        if !(self.holds::<f64>(name, w) || self.holds::<u32>(name, w)) {
            return Err(Fault::Unreadable);
        }
        let mut own = Sets::new(alloc);
        if let Ok(col) = self.column(name) {
            put(alloc, &mut own.reals, name, edited(alloc, col, k, w)?)?;
        }
        if let Ok(col) = self.column(name) {
            put(alloc, &mut own.wholes, name, edited(alloc, col, k, w)?)?;
        }
        Ok(own)
    }
}
