//! The levels of a graph: the nodes are taken layer by layer.
//!
//! The level of a node is 1 where no edge leads to it, else one more than the greatest level of a predecessor.
//! A node is taken once all its predecessors are, and its level is the number of its layer. What is never taken
//! lies behind a closed walk: then there are no levels. Each edge is taken away once, so time and memory are
//! linear in the nodes and edges.
//!
//! Source: A. B. Kahn, "Topological Sorting of Large Networks", Communications of the ACM 5 (1962).
ghost use Rattle.std.specs.Prelude.{◌≡◌, ℕ, ◌+◌, ◌<◌, ◌≤◌, ◌^◌, [], length, replicate, count_by, ◌==◌, IfOk, OnOk, MatchOption, All};
ghost use Rattle.fab_graph.specs.Walks.{IsEdge, HasClosedWalk};
ghost use Rattle.fab_rings.specs.EdgeList.{EdgeList, IsGraph, AreNodeLevels};
ghost use Rattle.fab_rings.specs.Neighbours.{successors_of};
ghost use Rattle.fab_rings.specs.Layers.{left_of, edges_left, times, times_ready, untaken, level_of, IsTaking, AreLayers, TakesEdges};

use crate::graph::Graph;
use crate::neighbours::Successors;
use std::alloc::{AllocError, Global};

/// The level of each node: 1 without a predecessor, else one more than the greatest level of one.
/// None exactly where a walk is closed.
///
/// Time and memory are linear in the nodes and edges. An error comes only for want of memory.
pub fn levels(alloc: Global, graph: &Graph) -> Result<Option<Vec<u32>>, AllocError>
    ensures { IfOk result (λ found. MatchOption found
        (HasClosedWalk (IsEdge graph.now.edges))
        (λ levels. AreNodeLevels graph.now levels.items)) }
{
    let successors = Successors::new(alloc, graph)?;
    find_levels(alloc, graph, &successors)
}

/// The level of each node, where the successors are known.
pub(crate) fn find_levels(
    alloc: Global,
    graph: &Graph,
    successors: &Successors,
) -> Result<Option<Vec<u32>>, AllocError>
    requires { successors.now ≡ graph.now }
    ensures { IfOk result (λ found. MatchOption found
        (HasClosedWalk (IsEdge graph.now.edges))
        (λ levels. AreNodeLevels graph.now levels.items)) }
{
    let levels = layer_levels(alloc, graph, successors)?;
    if levels.contains(&0) {
        return Ok(None);
    }
    Ok(Some(levels))
}

/// The levels of the nodes behind no closed walk, and 0 for the others.
fn layer_levels(
    alloc: Global,
    graph: &Graph,
    successors: &Successors,
) -> Result<Vec<u32>, AllocError>
    requires { successors.now ≡ graph.now }
    ensures { IfOk result (λ levels. AreLayers graph.now levels.items) }
{
    let nodes = graph.nodes();
    let mut left = edges_to_nodes(alloc, graph)?;
    let mut levels = vec![in alloc; 0; nodes as usize]?;
    let mut layer = free_nodes(alloc, nodes, &left)?;
    let mut level = 0;
    while !layer.is_empty() {
        level += 1;
        layer = take_layer(alloc, successors, &layer, level, &mut levels, &mut left)?;
    }
    Ok(levels)
}

/// How many edges lead to each node.
fn edges_to_nodes(alloc: Global, graph: &Graph) -> Result<Vec<usize>, AllocError>
    ensures each { IfOk result (λ left. length left.items ≡ graph.now.nodes) }
    ensures counts { IfOk result (λ left. (b : ℕ) → left_of left.items b ≡ edges_left graph.now.edges (replicate graph.now.nodes 0) b) }
{
    let mut left = vec![in alloc; 0; graph.nodes() as usize]?;
    for edge in graph.edges() {
        left[edge.1 as usize] += 1;
    }
    Ok(left)
}

/// The nodes to which no edge is left.
fn free_nodes(alloc: Global, nodes: u32, left: &[usize]) -> Result<Vec<u32>, AllocError>
    requires { length left.now ≡ nodes }
    ensures { IfOk result (λ layer. (b : ℕ) → times b layer.items ≡ times_ready (level_of (replicate nodes 0) b) (left_of left.now b)) }
{
    let mut layer = Vec::new(alloc);
    for node in 0..nodes {
        if left[node as usize] == 0 {
            layer.push(node)?;
        }
    }
    Ok(layer)
}

/// Gives this level to the nodes of a layer, and answers those of the next one.
fn take_layer(
    alloc: Global,
    successors: &Successors,
    layer: &[u32],
    level: u32,
    levels: &mut [u32],
    left: &mut [usize],
) -> Result<Vec<u32>, AllocError>
    requires kept { IsGraph successors.now }
    requires before { IsTaking successors.now levels.old left.old layer.now [] level }
    ensures after { IfOk result (λ next. IsTaking successors.now levels.new left.new [] next.items level) }
    ensures fewer { OnOk result (untaken levels.new + length layer.now ≡ untaken levels.old) }
{
    let mut next = Vec::new(alloc);
    for node in layer {
        levels[*node as usize] = level;
        take_edges(successors.of(*node), left, &mut next)?;
    }
    Ok(next)
}

/// Takes away the edges to these successors, and makes those nodes ready whose last edge goes.
fn take_edges(successors: &[u32], left: &mut [usize], next: &mut Vec<u32>) -> Result<(), AllocError>
    requires nodes { All (λ b. b < length left.old) successors.now }
    requires counts { (b : ℕ) → times b successors.now ≤ left_of left.old b }
    ensures { OnOk result (TakesEdges successors.now left.old left.new next.old.items next.new.items) }
{
    for successor in successors {
        let node = *successor as usize;
        left[node] -= 1;
        if left[node] == 0 {
            next.push(*successor)?;
        }
    }
    Ok(())
}
