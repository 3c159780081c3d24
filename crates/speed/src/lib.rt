// Speed points in a lent column: the smaller of two speeds, laying a limit, the drop at a new beginning, and the posted speed.
#![tactic(auto)]

pub mod speed_limit; // speed_limit.rs: a limit, and min_speed
pub mod laid; // a limit as it lies on a path
pub mod speed_point; // the points of a column, to read
pub mod speed_column; // a column whose points change
pub mod insert_speed; // speed_point.rs: laying a limit
pub mod clear; // path_tpc.rs: what clear does to the points
pub mod posted; // the speed at an offset
