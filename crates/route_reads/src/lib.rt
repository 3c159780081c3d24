// The lines of a route that read the path.
#![tactic(auto)]

pub mod reads; // positions, posted speeds, resistance, and the records of a link
