// The train's position: its record, and the links where its front and its back stand.
#![tactic(auto)]

pub mod train_state; // train_state.rs: the record, and question 1 of it
pub mod locate; // train_state.rs: the links of a position, by value
pub mod set_link_and_offset; // train_state.rs: the same into a lent record
