//! A plan as a subnet manager loads it: the texts of its tables, of its levels and of its configuration.
#![tactic(auto)]

mod classes;
mod config;
mod fault;
mod fitting;
mod laws;
mod levels;
mod part;
mod port_groups;
mod port_guids;
mod reached;
mod source_levels;
mod tables;
mod unfit_guids;
mod unfit_lanes;
mod unfit_routes;
mod used_levels;
mod write;

pub use fault::Unfit;
pub use fitting::check_fit;
pub use laws::{
    entries_are_said, fit_is_good, map_is_of_plan, one_unfit, policy_gives_levels,
    reached_is_connected, said_is_certified, said_reaches, same_is_same, same_tables,
    sources_have_classes, tables_are_read, tables_can_be_loaded,
};
pub use part::Part;
pub use write::write_part;
