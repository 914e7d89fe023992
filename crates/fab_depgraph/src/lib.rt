//! An arena of channel dependencies that never closes a walk, and takes additions back.
//!
//! A packet may hold a buffer of one channel while it waits for the next. An engine that lays routes one after the
//! other asks of each new dependency whether it would close a walk with those that are there, and gives up a route
//! that would. `DepGraph` answers this, and is cut back to a mark where a route is given up; `Layers` has an arena
//! for each lane. `Steps` counts the edges that are looked at.
//!
//! The edges are in a slab, linked channel by channel (`edges`); the channels are in an order in which the
//! numbers rise along every edge (`order`); an addition against the order searches forward (`search`).
#![tactic(auto)]

mod arena;
mod dep;
mod edges;
mod laws;
mod layers;
mod order;
mod search;
mod steps;

pub use arena::DepGraph;
pub use dep::{Added, Dep, Mark};
pub use laws::{closes_by_walk, closes_or_not, rising_is_acyclic, subsets_are_acyclic};
pub use layers::Layers;
pub use steps::Steps;
