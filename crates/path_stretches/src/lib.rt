// What a link adds to the grades, curves and power limits of a path.
#![tactic(auto)]

pub mod remainder; // the operator % of f64, which the C library would be called for
pub mod stretch; // path_tpc.rs: one neighbouring pair of elevations or headings
pub mod coeff_column; // grades or curves of a path, to lay stretches on
pub mod walk; // path_tpc.rs: all of a link's, walked dry and laid on a column
pub mod powers; // path_tpc.rs: power limits
