//! The levels of a graph, or its first ring.
//!
//! A graph has levels exactly where it has no ring, so one call answers the one or the other. Time and memory
//! are linear in the nodes and edges.
ghost use Rattle.std.specs.Prelude.{IfOk};
ghost use Rattle.fab_rings.specs.Numbering.{IsNumbering};

use crate::graph::Graph;
use crate::layers::find_levels;
use crate::neighbours::Successors;
use crate::ring::Ring;
use crate::rings::find_ring;
use std::alloc::{AllocError, Global};

/// How the nodes of a graph are numbered, or why they can't be.
#[derive(Drop)]
pub enum Numbering {
    /// The level of each node, which rises along each edge.
    Levels(Vec<u32>),
    /// The first ring: along it no numbers rise.
    Ring(Ring),
}

/// The levels of a graph without a closed walk, else its first ring. What `levels` and `first_ring` answer,
/// with the neighbours found once.
///
/// Time and memory are linear in the nodes and edges. An error comes only for want of memory.
pub fn levels_or_ring(alloc: Global, graph: &Graph) -> Result<Numbering, AllocError>
    ensures { IfOk result (IsNumbering graph.now) }
{
    let successors = Successors::new(alloc, graph)?;
    match find_levels(alloc, graph, &successors)? {
        Some(levels) => Ok(Numbering::Levels(levels)),
        None => {
            let ring = find_ring(alloc, graph, &successors)?.unwrap();
            Ok(Numbering::Ring(ring))
        }
    }
}
