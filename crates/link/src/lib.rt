// The link table, the train, conditions and sets, and what questions 4 to 7 ask of a link.
#![tactic(auto)]

pub mod train_params; // train_params.rs: the train, and whether a set applies to it
pub mod speed_param; // speed_param.rs: a condition of a set
pub mod speed_set; // speed_set.rs: the set places of a link
pub mod elev; // elev.rs, heading.rs: samples along a link
pub mod cat_power; // cat_power.rs: limits with a start and an end
pub mod network; // network.rs, link_idx.rs: a link of the table
pub mod questions; // questions 4 to 7 over a list of links
