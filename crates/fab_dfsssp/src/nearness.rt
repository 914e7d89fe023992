//! How near the nodes are to one of them, along edges with counts.
//!
//! The nearness of a node is the least number of edges, at least one, on a walk from it to the last one. The edges are
//! followed backwards from there, layer by layer, until a layer has the last one itself: then nodes that are as near as it
//! are known, and no others are asked for. Time: a step for each node, and one for each edge that is met; memory: 8 bytes
//! a node, and 4 for each node of a layer.
//!
//! Source: E. F. Moore, "The Shortest Path through a Maze", Proceedings of the International Symposium on the Theory of
//! Switching (1959).
ghost use Rattle.std.specs.Prelude.{◌≡◌, ℕ, ◌+◌, ◌<◌, [], length, All, IfOk, OnOk};
ghost use Rattle.fab_rings.specs.EdgeList.{EdgeList};
ghost use Rattle.fab_rings.specs.Layers.{times};
ghost use Rattle.fab_rings.specs.Nearness.{IsReaching, ReachesTails};
ghost use Rattle.fab_dfsssp.specs.Around.{AreNearAround};
ghost use Rattle.fab_dfsssp.specs.CountedEdges.{IsWhole, IsListing};

use crate::counted_edges::CountedEdges;
use std::alloc::{AllocError, Global};

/// The nearness of each node that is as near to the last one as that is to itself, and of no node that is farther; 0 for
/// a node without one. Where no closed walk leads through the last one, that one has 0.
pub(crate) fn nearness(
    alloc: Global,
    edges: &CountedEdges,
    last: u32,
) -> Result<Vec<usize>, AllocError>
    requires whole { IsWhole edges.now }
    requires node { last < length edges.now.heads }
    ensures { IfOk result (λ near. (g : EdgeList) → IsListing g edges.now → AreNearAround g last near.items) }
{
    let mut near = vec![in alloc; 0; edges.nodes()]?;
    let mut layer = vec![in alloc; last]?;
    let mut distance = 0;
    while !layer.is_empty() {
        distance += 1;
        layer = reach_layer(alloc, edges, &layer, distance, &mut near)?;
        if near[last as usize] > 0 {
            return Ok(near);
        }
    }
    Ok(near)
}

/// Gives this distance to the tails of the edges to a layer that have none, and answers them.
fn reach_layer(
    alloc: Global,
    edges: &CountedEdges,
    layer: &[u32],
    distance: usize,
    near: &mut [usize],
) -> Result<Vec<u32>, AllocError>
    requires whole { IsWhole edges.now }
    requires nodes { All (λ b. b < length edges.now.heads) layer.now }
    requires each { length near.old ≡ length edges.now.heads }
    requires some { 0 < distance }
    ensures after { IfOk result (λ next. (g : EdgeList) (last : ℕ) → IsListing g edges.now → IsReaching g last near.old layer.now [] distance → IsReaching g last near.new [] next.items distance) }
    ensures nodes { IfOk result (λ next. All (λ b. b < length edges.now.heads) next.items) }
    ensures fewer { IfOk result (λ next. times 0 near.new + length next.items ≡ times 0 near.old) }
{
    let mut next = Vec::new(alloc);
    for node in layer {
        reach_tails(edges.tails(*node), distance, near, &mut next)?;
    }
    Ok(next)
}

/// Gives this distance to those of the tails that have none.
fn reach_tails(
    tails: &[u32],
    distance: usize,
    near: &mut [usize],
    next: &mut Vec<u32>,
) -> Result<(), AllocError>
    requires nodes { All (λ a. a < length near.old) tails.now }
    requires some { 0 < distance }
    ensures { OnOk result (ReachesTails tails.now distance near.old near.new next.old.items next.new.items) }
{
    for tail in tails {
        let node = *tail as usize;
        if near[node] == 0 {
            near[node] = distance;
            next.push(*tail)?;
        }
    }
    Ok(())
}
