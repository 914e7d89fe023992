//! Levels and rings of directed graphs.
//!
//! Packets that hold buffers of one channel while they wait for the next can wait for each other for ever
//! where the dependencies of the channels close a ring. Where they close none, numbers that rise along each
//! dependency show it. So a graph is given its levels, or its first ring, and never both: `levels`,
//! `first_ring`, and `levels_or_ring` for the one or the other.
//!
//! A graph has the nodes below a count, and a list of edges, in which one may stand more than once. All calls
//! take time and memory that are linear in the nodes and edges.
//!
//! Source: W. J. Dally and C. L. Seitz, "Deadlock-Free Message Routing in Multiprocessor Interconnection
//! Networks", IEEE Transactions on Computers 36 (1987): a routing is free of deadlock exactly where the graph
//! of its channel dependencies has no ring.
#![tactic(auto)]

mod graph;
mod layers;
mod nearness;
mod neighbours;
mod numbering;
mod ring;
mod rings;
mod strong_components;

pub use graph::Graph;
pub use layers::levels;
pub use numbering::{Numbering, levels_or_ring};
pub use ring::Ring;
pub use rings::first_ring;
