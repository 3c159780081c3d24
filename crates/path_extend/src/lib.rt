// Links joined to a path's end.
#![tactic(auto)]

pub mod extend; // path_tpc.rs: the call
