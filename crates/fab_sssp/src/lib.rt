//! Weights of channels, distances, and single-source shortest path tables.
#![tactic(auto)]

mod laws;
mod laying;
mod passing;
mod search;
mod weights;

pub use laws::{
    connected_have_distance, least_weight_reaches, least_weight_tables_exist, one_distance,
    one_least_weight_tables, routes_are_least, sums_fit,
};
pub use laying::lay;
pub use search::distances;
pub use weights::Weights;
