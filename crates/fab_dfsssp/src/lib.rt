//! Deadlock-free single-source shortest path routing: rings are broken by moving paths to the next lane.
#![tactic(auto)]

mod breaking;
mod counted_edges;
mod lane_edges;
mod laws;
mod least_edge;
mod moving;
mod nearness;
mod neighbours;
mod numbered;
mod paths_over;
mod ring_search;
mod starting;

pub use breaking::{BreakFault, dfsssp};
pub use laws::{
    broken_or_refused, dfsssp_is_certified, dfsssp_plan_or_refusal_exists, lanes_stay_below,
    one_broken, one_dfsssp_plan, one_needs_lane, one_step,
};
