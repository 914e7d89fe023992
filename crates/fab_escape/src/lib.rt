//! Escape trees: in each lane a spanning tree for each component, whose routes close no walk of channel dependencies.
#![tactic(auto)]

mod escape;
mod jumps;
mod laws;
mod links;
mod roots;

pub use escape::Escape;
pub use laws::{
    escape_is_acyclic, escape_numbers_rise, escape_routes_lead, escape_routes_repeat_no_switch,
    escape_tree_is_tree, forest_exists, no_next_channel, one_forest, roots_tell_components,
    routes_stay_in_tree,
};
