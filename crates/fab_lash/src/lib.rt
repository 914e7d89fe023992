//! Layered shortest path routing (LASH): pairs of switches go to lanes on which no walk of dependencies is closed.
#![tactic(auto)]

mod laws;
mod layered;
mod layered_plan;
mod layering;
mod levels;
mod numbered;
mod pair_layers;
mod pair_routes;
mod placing;
mod trying;

pub use laws::{
    lanes_are_acyclic, layered_is_certified, layered_or_refused, layered_plan_or_refusal_exists,
    one_layered_plan, one_layering, one_needs_lane,
};
pub use layered::{LashFault, Layered};
pub use layered_plan::lash;
