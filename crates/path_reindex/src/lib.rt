// Other numbers for a path's links.
#![tactic(auto)]

pub mod reindex; // path_tpc.rs: the call
