// The path: its record and lent columns, and questions 1 to 7 as its calls put them.
#![tactic(auto)]

pub mod link_point; // link_point.rs: single link points, and their counts added up
pub mod lines; // grades or curves
pub mod path_tpc; // path_tpc.rs: the path's record
pub mod columns; // the columns that callers lend
pub mod finite; // question 1
pub mod sound; // question 2
pub mod questions; // questions 1 and 2 in turn
pub mod links; // questions 4 to 7 of a list of links
pub mod rest; // entries past the counts
