// The link table: its columns, each behind its length among the entries of one column, which are laid out as numbers and as floats.
use crate::words::{Column, ENTRIES};
use link::network::Network;
use std::alloc::{AllocError, Global};
use std::ops::Range;

#[derive(Drop)]
pub struct Table<'a> {
    place: Column<'a>,
    numbers: Vec<u32>,
    floats: Vec<f64>,
}

// A column of the table, by the place of its length.
#[derive(Clone, Copy)]
struct Part<'a> {
    table: Column<'a>,
    at: usize,
}

impl Part<'_> {
    // Its entries among the table's.
    fn entries(self) -> Range<usize> {
        let n = self.table.0.get(self.at).copied().unwrap_or(0);
        self.at..self.at.saturating_add(n as usize).min(ENTRIES)
    }

    // The column behind it; where the words end before, it is this one again.
    fn next(self) -> Self {
        match self
            .table
            .0
            .get(self.at..)
            .and_then(|words| words.split_first())
        {
            Some((n, behind)) if *n as usize <= behind.len() => Part {
                at: self.at + 1 + *n as usize,
                ..self
            },
            _ => self,
        }
    }

    fn of<T>(self, laid: &[T]) -> &[T] {
        laid.get(self.entries()).unwrap_or(&[])
    }
}

impl Table<'_> {
    pub fn read(alloc: Global, place: Column) -> Result<Table, AllocError> {
        Ok(Table {
            place,
            numbers: place.numbers(alloc, ENTRIES)?,
            floats: place.floats(alloc, ENTRIES)?,
        })
    }

    // The table as it is lent.
    pub fn network(&self) -> Network<'_> {
        let links = Part {
            table: self.place,
            at: 1,
        };
        let lengths = links.next();
        let sets = lengths.next();
        let elevs = sets.next();
        let headings = elevs.next();
        let limits = headings.next();
        let codes = limits.next();
        let values = codes.next();
        let powers = values.next();
        Network {
            links: links.of(&self.numbers),
            lengths: lengths.of(&self.floats),
            sets: sets.of(&self.numbers),
            elevs: elevs.of(&self.floats),
            headings: headings.of(&self.floats),
            limits: limits.of(&self.floats),
            codes: codes.of(&self.numbers),
            values: values.of(&self.floats),
            powers: powers.of(&self.floats),
            districts: powers.next().of(&self.numbers),
        }
    }
}
