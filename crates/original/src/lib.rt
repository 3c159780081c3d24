// The speed points that the original Rust would have, beside the port's: what it posts behind a drop, and where it stops.
#![tactic(auto)]

pub mod insert; // a limit, as the original lays it
pub mod run; // a run of the original, followed in a column
