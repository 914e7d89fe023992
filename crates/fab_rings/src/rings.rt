//! The first ring of a graph.
//!
//! Many rings may show that a graph has no levels. The first one is fixed by the edges alone: it begins with
//! the least node on a closed walk, is as short as a ring through it can be, and goes on at each node to the
//! least successor that is one edge nearer to the first.
//!
//! A node is on a closed walk exactly where one of its successors is in its strongly connected component. The
//! components are found once, so time and memory are linear in the nodes and edges, also where closed walks
//! are joined by long ways.
ghost use Rattle.std.specs.Prelude.{◌≡◌, ◌≢◌, ℕ, ◌<◌, ◌≤◌, List, ◌∷◌, length, true, false, IfOk, All, Contains, MatchOption, slice_index_or};
ghost use Rattle.fab_graph.specs.Walks.{IsEdge, IsOnClosedWalk, IsAcyclic};
ghost use Rattle.fab_graph.specs.Least.{IsLeast};
ghost use Rattle.fab_graph.specs.Rings.{ReturnsByLeast, IsFirstRing};
ghost use Rattle.fab_rings.specs.EdgeList.{IsGraph};
ghost use Rattle.fab_rings.specs.StrongComponents.{value_of};
ghost use Rattle.fab_rings.specs.Nearness.{near_of, AreNear, StandsAtDistance};

use crate::graph::Graph;
use crate::nearness::nearness;
use crate::neighbours::{Predecessors, Successors};
use crate::ring::Ring;
use crate::strong_components::strong_components;
use std::alloc::{AllocError, Global};

/// The first ring: it begins with the least node on a closed walk, and goes on to the least
/// successor that is one edge nearer to it. None exactly where no walk is closed.
///
/// Time and memory are linear in the nodes and edges. An error comes only for want of memory.
pub fn first_ring(alloc: Global, graph: &Graph) -> Result<Option<Ring>, AllocError>
    ensures { IfOk result (λ ring. MatchOption ring
        (IsAcyclic (IsEdge graph.now.edges))
        (λ nodes. IsFirstRing (IsEdge graph.now.edges) nodes)) }
{
    let successors = Successors::new(alloc, graph)?;
    find_ring(alloc, graph, &successors)
}

/// The first ring, where the successors are known.
pub(crate) fn find_ring(
    alloc: Global,
    graph: &Graph,
    successors: &Successors,
) -> Result<Option<Ring>, AllocError>
    requires { successors.now ≡ graph.now }
    ensures { IfOk result (λ ring. MatchOption ring
        (IsAcyclic (IsEdge graph.now.edges))
        (λ nodes. IsFirstRing (IsEdge graph.now.edges) nodes)) }
{
    let components = strong_components(alloc, graph, successors)?;
    for node in 0..graph.nodes() {
        if leads_into(successors.of(node), &components, components[node as usize]) {
            let ring = ring_at(alloc, graph, successors, node)?;
            return Ok(Some(ring));
        }
    }
    Ok(None)
}

/// Whether one of these nodes is in a component.
fn leads_into(nodes: &[u32], components: &[usize], component: usize) -> bool
    requires { All (λ b. b < length components.now) nodes.now }
    ensures there { result ≡ true → (b : ℕ) × Contains nodes.now b × (value_of components.now b ≡ component) }
    ensures nowhere { result ≡ false → (b : ℕ) → Contains nodes.now b → value_of components.now b ≢ component }
{
    for node in nodes {
        if components[*node as usize] == component {
            return true;
        }
    }
    false
}

/// The ring from a node on a closed walk.
fn ring_at(
    alloc: Global,
    graph: &Graph,
    successors: &Successors,
    first: u32,
) -> Result<Ring, AllocError>
    requires same { successors.now ≡ graph.now }
    requires kept { IsGraph graph.now }
    requires closed { IsOnClosedWalk (IsEdge graph.now.edges) first }
    ensures { IfOk result (λ ring. (rest : List ℕ) × (ring ≡ first ∷ rest) × ReturnsByLeast (IsEdge graph.now.edges) first (first ∷ rest)) }
{
    let predecessors = Predecessors::new(alloc, graph)?;
    let near = nearness(alloc, graph, &predecessors, first)?;
    ring_from(alloc, graph, successors, &near, first)
}

/// The ring from a node on a closed walk, where the nodes are so near to it.
fn ring_from(
    alloc: Global,
    graph: &Graph,
    successors: &Successors,
    near: &[usize],
    first: u32,
) -> Result<Ring, AllocError>
    requires same { successors.now ≡ graph.now }
    requires kept { IsGraph graph.now }
    requires near { AreNear graph.now first near.now }
    requires closed { 0 < near_of near.now first }
    ensures { IfOk result (λ ring. (rest : List ℕ) × (ring ≡ first ∷ rest) × ReturnsByLeast (IsEdge graph.now.edges) first (first ∷ rest)) }
{
    let mut ring = vec![in alloc; first]?;
    let mut node = first;
    let mut distance = near[first as usize];
    while distance > 1 {
        distance -= 1;
        node = least_at(successors.of(node), near, distance).unwrap();
        ring.push(node)?;
    }
    Ok(Ring::new(ring))
}

/// The least of the nodes at this distance.
fn least_at(nodes: &[u32], near: &[usize], distance: usize) -> Option<u32>
    requires { All (λ a. a < length near.now) nodes.now }
    ensures { MatchOption result
        ((a : ℕ) → ¬ StandsAtDistance nodes.now near.now distance a)
        (IsLeast (StandsAtDistance nodes.now near.now distance)) }
{
    let mut least: Option<u32> = None;
    for node in nodes {
        if near[*node as usize] == distance {
            least = match least {
                Some(other) => Some(other.min(*node)),
                None => Some(*node),
            };
        }
    }
    least
}
