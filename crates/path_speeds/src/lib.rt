// Speed limits of a path's links: laid on its speed points, and laid anew.
#![tactic(auto)]

pub mod limits; // path_tpc.rs: the limits of one set
pub mod add_speeds; // path_tpc.rs: the limits of a link, and of link points
pub mod recalc_speeds; // path_tpc.rs: the limits of the links still present
