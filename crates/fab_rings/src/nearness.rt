//! How near the nodes of a graph are to one of them.
//!
//! The nearness of a node is the least number of edges, at least one, on a walk from it to the last one. The
//! edges are followed backwards from there, layer by layer, each once: time and memory are linear in the nodes
//! and edges.
//!
//! Source: E. F. Moore, "The Shortest Path through a Maze", Proceedings of the International Symposium on the
//! Theory of Switching (1959).
ghost use Rattle.std.specs.Prelude.{◌≡◌, ℕ, ◌+◌, ◌<◌, [], length, IfOk, OnOk, All};
ghost use Rattle.fab_rings.specs.EdgeList.{IsGraph};
ghost use Rattle.fab_rings.specs.Layers.{times};
ghost use Rattle.fab_rings.specs.Nearness.{AreNear, IsReaching, ReachesTails};

use crate::graph::Graph;
use crate::neighbours::Predecessors;
use std::alloc::{AllocError, Global};

/// The least number of edges, at least one, on a walk from each node to the last one, and 0 where none leads
/// there.
pub(crate) fn nearness(
    alloc: Global,
    graph: &Graph,
    predecessors: &Predecessors,
    last: u32,
) -> Result<Vec<usize>, AllocError>
    requires same { predecessors.now ≡ graph.now }
    requires node { last < graph.now.nodes }
    ensures { IfOk result (λ near. AreNear graph.now last near.items) }
{
    let mut near = vec![in alloc; 0; graph.nodes() as usize]?;
    let mut layer = vec![in alloc; last]?;
    let mut distance = 0;
    while !layer.is_empty() {
        distance += 1;
        layer = reach_layer(alloc, predecessors, &layer, distance, &mut near)?;
    }
    Ok(near)
}

/// Gives this distance to the predecessors of a layer that have none, and answers them.
fn reach_layer(
    alloc: Global,
    predecessors: &Predecessors,
    layer: &[u32],
    distance: usize,
    near: &mut [usize],
) -> Result<Vec<u32>, AllocError>
    requires kept { IsGraph predecessors.now }
    requires nodes { All (λ b. b < predecessors.now.nodes) layer.now }
    requires each { length near.old ≡ predecessors.now.nodes }
    requires some { 0 < distance }
    ensures after { IfOk result (λ next. (last : ℕ) → IsReaching predecessors.now last near.old layer.now [] distance → IsReaching predecessors.now last near.new [] next.items distance) }
    ensures nodes { IfOk result (λ next. All (λ b. b < predecessors.now.nodes) next.items) }
    ensures fewer { IfOk result (λ next. times 0 near.new + length next.items ≡ times 0 near.old) }
{
    let mut next = Vec::new(alloc);
    for node in layer {
        reach_tails(predecessors.of(*node), distance, near, &mut next)?;
    }
    Ok(next)
}

/// Gives this distance to those of the tails that have none.
fn reach_tails(
    tails: &[u32],
    distance: usize,
    near: &mut [usize],
    next: &mut Vec<u32>,
) -> Result<(), AllocError>
    requires nodes { All (λ a. a < length near.old) tails.now }
    requires some { 0 < distance }
    ensures { OnOk result (ReachesTails tails.now distance near.old near.new next.old.items next.new.items) }
{
    for tail in tails {
        let node = *tail as usize;
        if near[node] == 0 {
            near[node] = distance;
            next.push(*tail)?;
        }
    }
    Ok(())
}
