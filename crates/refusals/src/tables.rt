// Questions 4 to 7 of a link table, put to a list in their order: the first no is printed with its place.
use crate::columns::{Columns, Number, Sets};
use crate::fields::{Fault, numbers, to_number};
use answer::{Question, Refusal};
use link::network::Network;
use link::questions::{Numbers, question5};
use link::train_params::TrainType;
use std::alloc::Global;
use std::fmt;

// What the four questions answer: done, or the number of the first no and its place.
#[derive(Clone, Copy)]
pub struct Judged(Result<(), Refusal>);

impl fmt::Display for Judged {
    fn fmt<W: fmt::Write>(&self, f: &mut fmt::Formatter<W>) -> fmt::Result {
        match self.0 {
            Ok(()) => write!(f, " done"),
            Err(e) => write!(f, " {} at {}", e.question.number(), e.place),
        }
    }
}

// The columns of the text; one that stands among its own as well is taken from there, with an edit in it.
#[derive(Drop)]
struct Edited<'a> {
    columns: &'a Columns,
    own: Sets,
}

impl Edited<'_> {
    fn column<T: Number>(&self, name: &[u8]) -> &[T] {
        match self.own.column(name) {
            Some(col) => col,
            None => self.columns.column(name).unwrap_or(&[]),
        }
    }

    // The table as it is lent.
    fn network(&self) -> Network<'_> {
        Network {
            links: self.column(b"links"),
            lengths: self.column(b"lengths"),
            sets: self.column(b"sets"),
            elevs: self.column(b"elevs"),
            headings: self.column(b"headings"),
            limits: self.column(b"limits"),
            codes: self.column(b"codes"),
            values: self.column(b"values"),
            powers: self.column(b"link_powers"),
            districts: self.column(b"link_districts"),
        }
    }

    // The questions put to the table.
    fn asked(&self, list: &[u32]) -> Result<(), Refusal> {
        let network = self.network();
        let numbers = Numbers::Listed(list, list.len());
        Question::InTable.ask_each(network.question4(&numbers))?;
        Question::Follows.ask_each(question5(list, network.links, None))?;
        Question::Formed.ask_each(network.question6(&numbers))?;
        Question::HasSet.ask_each(network.question7(&numbers, TrainType::Freight))
    }
}

// ask LINK ..: the list, over the table as it stands.
pub fn ask(alloc: Global, columns: &Columns, args: &[&[u8]]) -> Result<Judged, Fault> {
    let list = numbers::<u32>(alloc, args)?;
    let own = Sets::new(alloc);
    Ok(Judged(Edited { columns, own }.asked(&list)))
}

// The questions put to the text's list, over the table with entry k of a column another.
fn ask_with(
    alloc: Global,
    columns: &Columns,
    name: &[u8],
    k: usize,
    value: &[u8],
) -> Result<Judged, Fault> {
    let list = columns.column(b"list").unwrap_or(&[]);
    let own = columns.edited(alloc, name, k, value)?;
    Ok(Judged(Edited { columns, own }.asked(list)))
}

// edit COLUMN ENTRY STEP VALUE: at links 1, 2 and 3 in turn, from the entry of link 0 so many entries further for each.
pub fn edit(alloc: Global, columns: &Columns, args: &[&[u8]]) -> Result<[Judged; 3], Fault> {
    let [name, entry, step, value] = args else {
        return Err(Fault::Unreadable);
    };
    let entry = to_number::<u32>(entry)? as usize; // below 2^32, so that no sum is too large
    let step = to_number::<u32>(step)? as usize;
    Ok([
        ask_with(alloc, columns, name, entry + step, value)?,
        ask_with(alloc, columns, name, entry + 2 * step, value)?,
        ask_with(alloc, columns, name, entry + 3 * step, value)?,
    ])
}
