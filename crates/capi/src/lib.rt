// The C interface: every public call under a plain name, records by value, columns as pointer and length. include/mochaspit.h declares it.
#![tactic(auto)]

pub mod codes; // directions and train types as numbers
pub mod path_calls; // calls that may change a path
pub mod link_records; // where the grades and curves of a link lie
pub mod posted; // the speed at an offset
pub mod lists; // calls on a list searched alone
pub mod position; // the links where a train stands
