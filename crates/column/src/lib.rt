// Flat columns that the caller lends: single entries, whole stretches, and records of some entries each.
#![tactic(auto)]

mod entries; // entries.rt: single entries, and stretches that move or become zero
mod records; // records.rt: records of two, three or four entries

pub use entries::{Entry, all_finite, close_gap, get, move_front, open_gap, set, zero_from};
pub use records::{Record, put_record, record_at};

// The entries of a record, in the column's order.
#[derive(Clone, Copy)]
pub struct Two(pub f64, pub f64);

#[derive(Clone, Copy)]
pub struct Three(pub f64, pub f64, pub f64);

#[derive(Clone, Copy)]
pub struct Four(pub u32, pub u32, pub u32, pub u32);
