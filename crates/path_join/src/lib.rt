// What listed links add to a path.
#![tactic(auto)]

pub mod path_end; // question 8, walked over the listed links
pub mod fit; // question 9
pub mod join; // path_tpc.rs: link points, grades, curves and power limits of the listed links
