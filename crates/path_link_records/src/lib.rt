// The records of one link of a path.
#![tactic(auto)]

pub mod link_records; // a link's grades or curves as that part of the caller's column
