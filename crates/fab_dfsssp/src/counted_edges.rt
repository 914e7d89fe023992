//! Edges between numbered nodes, each with a count.
//!
//! A map has the count of each edge that was ever there. Beside it each node has a list of the heads of the edges that
//! leave it and one of the tails of those that lead to it; an edge stands in both as long as its count isn't 0. Raising
//! or lowering a count takes a look-up, and where an edge comes or goes, a step for each edge at its two ends. Memory:
//! some 16 bytes for an edge that was ever there, 8 for one that is, and 48 for a node.
ghost use Rattle.std.specs.Prelude.{◌≡◌, ℕ, ◌+◌, ◌^◌, ◌<◌, length, IfOk, OnOk};
ghost use Rattle.fab_dfsssp.specs.CountedEdges.{times_of, one_at, list_at, IsWhole, HasNoEdge};

use crate::neighbours::Neighbours;
use std::alloc::{AllocError, Global};
use std::collections::HashMap;

/// Edges between the nodes below a count, and how often each was raised and not lowered.
#[derive(Drop)]
pub(crate) struct CountedEdges {
    times: HashMap<(u32, u32), u32>,
    heads: Neighbours,
    tails: Neighbours,
}

impl CountedEdges {
    /// No edge between so many nodes.
    pub(crate) fn new(alloc: Global, nodes: u32) -> Result<CountedEdges, AllocError>
        ensures whole { IfOk result (λ edges. IsWhole edges) }
        ensures nodes { IfOk result (λ edges. length edges.heads ≡ nodes) }
        ensures none { IfOk result HasNoEdge }
    {
        Ok(CountedEdges {
            times: HashMap::new(alloc),
            heads: Neighbours::new(alloc, nodes)?,
            tails: Neighbours::new(alloc, nodes)?,
        })
    }

    /// How many nodes there are.
    pub(crate) fn nodes(&self) -> usize
        ensures { result ≡ length self.now.heads }
    {
        self.heads.len()
    }

    /// The count of an edge.
    pub(crate) fn times(&self, edge: (u32, u32)) -> u32
        ensures { result ≡ times_of self.now edge }
    {
        self.times.get(&edge).copied().unwrap_or(0)
    }

    /// The heads of the edges that leave a node.
    pub(crate) fn heads(&self, node: u32) -> &[u32]
        requires { node < length self.now.heads }
        ensures { result.now ≡ list_at self.now.heads node }
    {
        self.heads.of(node)
    }

    /// The tails of the edges that lead to a node.
    pub(crate) fn tails(&self, node: u32) -> &[u32]
        requires { node < length self.now.tails }
        ensures { result.now ≡ list_at self.now.tails node }
    {
        self.tails.of(node)
    }

    /// Counts an edge once more. The error is want of memory.
    pub(crate) fn raise(&mut self, edge: (u32, u32)) -> Result<(), AllocError>
        requires whole { IsWhole self.old }
        requires tail { edge.0 < length self.old.heads }
        requires head { edge.1 < length self.old.heads }
        requires fits { times_of self.old edge + 1 < 2 ^ 32 }
        ensures whole { OnOk result (IsWhole self.new) }
        ensures nodes { OnOk result (length self.new.heads ≡ length self.old.heads) }
        ensures times { OnOk result ((other : ℕ × ℕ) → times_of self.new other ≡ times_of self.old other + one_at edge other) }
    {
        let times = self.times(edge);
        if times == 0 {
            let (tail, head) = edge;
            self.heads.add(tail, head)?;
            self.tails.add(head, tail)?;
        }
        self.times.insert(edge, times + 1)?;
        Ok(())
    }

    /// Counts an edge once less. The error is want of memory.
    pub(crate) fn lower(&mut self, edge: (u32, u32)) -> Result<(), AllocError>
        requires whole { IsWhole self.old }
        requires some { 0 < times_of self.old edge }
        ensures whole { OnOk result (IsWhole self.new) }
        ensures nodes { OnOk result (length self.new.heads ≡ length self.old.heads) }
        ensures times { OnOk result ((other : ℕ × ℕ) → times_of self.new other + one_at edge other ≡ times_of self.old other) }
    {
        let times = self.times(edge) - 1;
        if times == 0 {
            let (tail, head) = edge;
            self.heads.remove(tail, head);
            self.tails.remove(head, tail);
        }
        self.times.insert(edge, times)?;
        Ok(())
    }
}
