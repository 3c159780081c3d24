// Resistance of a train on a list of grade or curve records: path_res.rs. A call that C mirrors takes a column and a count as C lends them,
// and asks questions 1 and 2 of them; what it calls takes the list that they are.
#![tactic(auto)]

pub mod listed; // a list searched alone: its questions, one search, one record
pub mod point; // path_res.rs: the train as a point in its middle
pub mod strap; // path_res.rs: the train as a strap from front to back
pub mod walk; // a strap over many positions
