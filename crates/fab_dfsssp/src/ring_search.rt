//! The rings through a node, along edges with counts that only fall: as short as a ring through it can be, and at each node
//! on to the least head that is one edge nearer to the first.
//!
//! The nearness of a node never falls where edges go. So the numbers of a search are kept, and serve for each ring of the
//! length that they say: at each node the ring goes on to the least head that is one nearer by the numbers. Where there is
//! none, the node loses its number, and the ring goes back to the node before. Once the first node has lost its own, no
//! ring of this length is left, and the nearness is found anew. So there is a search for each length, and one more where no
//! ring is left. In between, a node loses its number once at most; that, and a ring, takes a step for each edge that leaves
//! the nodes. Memory: that of the ring.
//!
//! Source: E. A. Dinic, "Algorithm for Solution of a Problem of Maximum Flow in a Network with Power Estimation", Soviet
//! Mathematics Doklady 11 (1970), where one layering serves for all shortest paths of a length.
ghost use Rattle.std.specs.Prelude.{◌≡◌, ℕ, ◌-◌, ◌<◌, ◌↔◌, List, ◌∷◌, length, All, IfOk, OnOk, IsSome, IsTrue, MatchOption};
ghost use Rattle.fab_graph.specs.Least.{IsLeast};
ghost use Rattle.fab_graph.specs.Rings.{IsFirstRing, ReturnsByLeast};
ghost use Rattle.fab_graph.specs.Walks.{Walk, IsOnClosedWalk};
ghost use Rattle.fab_rings.specs.Nearness.{near_of, StandsAtDistance};
ghost use Rattle.fab_dfsssp.specs.CountedEdges.{IsCounted, IsWhole, list_at};
ghost use Rattle.fab_dfsssp.specs.KeptNear.{AreKeptNear};

use crate::counted_edges::CountedEdges;
use crate::nearness::nearness;
use fab_rings::Ring;
use std::alloc::{AllocError, Global};

/// The first ring, where no node before this one is on a closed walk; None where this one isn't either. The numbers are
/// those of a search from the same node, along at least these edges; one of 0 says that no ring leads through it. The error
/// is want of memory.
pub(crate) fn ring_through(
    alloc: Global,
    edges: &CountedEdges,
    first: u32,
    near: &mut Vec<usize>,
) -> Result<Option<Ring>, AllocError>
    requires whole { IsWhole edges.now }
    requires node { first < length edges.now.heads }
    requires before { (a : ℕ) → a < first → ¬ IsOnClosedWalk (λ (b c : ℕ). IsCounted edges.now b c) a }
    requires each { length near.old.items ≡ length edges.now.heads }
    requires kept { AreKeptNear (λ a b. IsCounted edges.now a b) first near.old.items }
    requires none { near_of near.old.items first ≡ 0 → ¬ IsOnClosedWalk (λ (b c : ℕ). IsCounted edges.now b c) first }
    ensures ring { IfOk result (λ ring. MatchOption ring
        (¬ IsOnClosedWalk (λ (b c : ℕ). IsCounted edges.now b c) first)
        (λ nodes. IsFirstRing (λ b c. IsCounted edges.now b c) nodes)) }
    ensures each { OnOk result (length near.new.items ≡ length edges.now.heads) }
    ensures kept { OnOk result (AreKeptNear (λ a b. IsCounted edges.now a b) first near.new.items) }
    ensures numbered { IfOk result (λ ring. IsSome ring → 0 < near_of near.new.items first) }
{
    if near[first as usize] == 0 {
        return Ok(None);
    }
    let kept = ring_along(alloc, edges, first, near)?;
    if kept.is_some() {
        return Ok(kept);
    }
    *near = nearness(alloc, edges, first)?;
    ring_along(alloc, edges, first, near)
}

/// The ring of the length that the number of its first node says; None where there is none, or no number. Nodes from which
/// no such ring leads on lose their numbers.
fn ring_along(
    alloc: Global,
    edges: &CountedEdges,
    first: u32,
    near: &mut [usize],
) -> Result<Option<Ring>, AllocError>
    requires whole { IsWhole edges.now }
    requires node { first < length edges.now.heads }
    requires each { length near.old ≡ length edges.now.heads }
    requires kept { AreKeptNear (λ a b. IsCounted edges.now a b) first near.old }
    ensures ring { IfOk result (λ ring. MatchOption ring
        (0 < near_of near.old first → ¬ Walk (λ (a b : ℕ). IsCounted edges.now a b) (near_of near.old first) first first)
        (λ nodes. (rest : List ℕ) × (nodes ≡ first ∷ rest) × ReturnsByLeast (λ a b. IsCounted edges.now a b) first (first ∷ rest))) }
    ensures kept { OnOk result (AreKeptNear (λ a b. IsCounted edges.now a b) first near.new) }
    ensures numbered { IfOk result (λ ring. IsSome ring → 0 < near_of near.new first) }
{
    if near[first as usize] == 0 {
        return Ok(None);
    }
    let mut ring = vec![in alloc; first]?;
    while let Some(node) = ring.pop() {
        if leads_back(edges, near, node, first) {
            ring.push(node)?;
            return Ok(Some(Ring::new(ring)));
        }
        match nearer_head(edges, near, node) {
            Some(head) => {
                ring.push(node)?;
                ring.push(head)?;
            }
            None => near[node as usize] = 0,
        }
    }
    Ok(None)
}

/// Whether a ring ends at this node: its number is 1, and an edge leads from it to the first.
fn leads_back(edges: &CountedEdges, near: &[usize], node: u32, first: u32) -> bool
    requires { node < length near.now }
    ensures { IsTrue result ↔ ((near_of near.now node ≡ 1) × IsCounted edges.now node first) }
{
    near[node as usize] == 1 && edges.times((node, first)) > 0
}

/// The least head of the edges from a node that is one nearer by the numbers, and has one.
fn nearer_head(edges: &CountedEdges, near: &[usize], node: u32) -> Option<u32>
    requires whole { IsWhole edges.now }
    requires node { node < length edges.now.heads }
    requires each { length near.now ≡ length edges.now.heads }
    ensures { MatchOption result
        (1 < near_of near.now node → (a : ℕ) → ¬ StandsAtDistance (list_at edges.now.heads node) near.now (near_of near.now node - 1) a)
        (λ head. (1 < near_of near.now node) × IsLeast (StandsAtDistance (list_at edges.now.heads node) near.now (near_of near.now node - 1)) head) }
{
    let distance = near[node as usize];
    if distance < 2 {
        return None;
    }
    least_at(edges.heads(node), near, distance - 1)
}

/// The least of the nodes at this distance.
fn least_at(nodes: &[u32], near: &[usize], distance: usize) -> Option<u32>
    requires { All (λ a. a < length near.now) nodes.now }
    ensures { MatchOption result
        ((a : ℕ) → ¬ StandsAtDistance nodes.now near.now distance a)
        (IsLeast (StandsAtDistance nodes.now near.now distance)) }
{
    let mut least: Option<u32> = None;
    for node in nodes {
        if near[*node as usize] == distance {
            least = match least {
                Some(other) => Some(other.min(*node)),
                None => Some(*node),
            };
        }
    }
    least
}
