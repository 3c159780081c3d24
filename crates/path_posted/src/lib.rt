// The speed posted at an offset of a path, as one call.
#![tactic(auto)]

pub mod posted_speed; // the speed of the last speed point at or before the offset
