// Grade and curve records in a lent column, and the search of a list of them from a hint.
#![tactic(auto)]

pub mod lin_search_hint; // lin_search_hint.rs: directions
pub mod path_res_coeff; // path_res_coeff.rs: the record
pub mod coeff_list; // a list that is known to be sound, to read
pub mod search; // the search in it
pub mod calc_idx; // path_res_coeff.rs: the public call
