// A path's two ends: a new path, and a path that is finished.
#![tactic(auto)]

pub mod new; // path_tpc.rs: a path without links
pub mod finish; // path_tpc.rs: the closing records
