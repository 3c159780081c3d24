// Route files: a train, links and calls as lines of text.
#![tactic(auto)]

pub mod text; // lines and fields of a text
pub mod fields; // numbers and words out of a field
pub mod kinds; // what a line is by its first field
pub mod wanted; // what each field has to be, for words about it
pub mod judge; // whether every line can be read
pub mod fill; // the columns of the link table
