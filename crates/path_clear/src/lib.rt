// The links behind an offset go.
#![tactic(auto)]

pub mod clear; // path_tpc.rs: the drop at one offset
pub mod clear_each; // the drop at each offset of a list, as one call
