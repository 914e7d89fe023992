//! Edges with counts, linked channel by channel.
//!
//! The edges lie in a slab. Those of one channel are linked by their keys, the newest first, and each carries how
//! often it was added. An edge is found along its channel's links, so a call takes time linear in the edges of one
//! channel. Memory is taken where room is made: 32 bytes an edge, 16 bytes a channel.
ghost use Rattle.std.specs.Prelude.{◌≡◌, ℕ, ◌+◌, ◌^◌, ◌<◌, ◌≤◌, List, [], length, map, replicate, IfOk, OnOk, OnErr, Option};
ghost use Rattle.std.specs.Iterator.{YieldsFirst, item_count};
ghost use Rattle.slab.specs.Slab.{slab_len};
ghost use Rattle.fab_depgraph.specs.Edges.{IsChain, IsFound, EdgeRows, row_at, edge_count, times_in, with_raised, with_lowered, CanBeLowered, channels_of};

use fab_model::ChannelId;
use slab::Slab;
use std::alloc::{AllocError, Global};
use std::marker::Model;

/// An edge from a channel.
#[derive(Clone, Copy, Drop)]
pub(crate) struct Edge {
    /// The channel that it leads to.
    second: ChannelId,
    /// How often it was added.
    count: u32,
    /// The key of the next older edge of the same channel.
    next: Option<usize>,
}

/// Edges with counts, seen as the rows of the channels: the second channel and the count of each edge, the newest
/// edge first.
#[derive(Drop)]
pub(crate) struct Edges {
    edges: Slab<Edge>,
    /// Channel by channel the key of its newest edge.
    newest: Vec<Option<usize>>,
}

impl Model for Edges {
    ghost use Rattle.std.specs.Prelude.{List, ℕ};
    ghost use Rattle.fab_depgraph.specs.Edges.{EdgeRows, rows_in, AreLinked};

    ghost Value = { EdgeRows };

    ghost view = { λ e. record { rows = rows_in e.edges.slots e.newest.items; capacity = e.edges.capacity } };

    ghost invariant = { λ e. (links : List (List ℕ)) × AreLinked e.edges.slots e.newest.items links };
}

impl Edges {
    /// No edge, and no room for one.
    pub(crate) fn new(alloc: Global, channels: u32) -> Result<Edges, AllocError>
        ensures { IfOk result (λ edges. edges.rows ≡ replicate channels []) }
    {
        Ok(Edges {
            edges: Slab::new(alloc),
            newest: vec![in alloc; None; channels as usize]?,
        })
    }

    /// Makes room for so many edges in all.
    pub(crate) fn reserve(&mut self, edges: usize) -> Result<(), AllocError>
        ensures ok { OnOk result (edges ≤ self.new.capacity) }
        ensures capacity { self.old.capacity ≤ self.new.capacity }
        ensures rows { self.new.rows ≡ self.old.rows }
    {
        self.edges.reserve(edges.saturating_sub(self.edges.len()))?;
        Ok(())
    }

    /// How often an edge was added.
    pub(crate) fn count(&self, first: ChannelId, second: ChannelId) -> u32
        ensures { result ≡ times_in (row_at self.now.rows first.0) second.0 }
    {
        let Some(newest) = self.newest.get(first.0 as usize) else {
            return 0;
        };
        match find(&self.edges, *newest, second) {
            Some(key) => self.edges[key].count,
            None => 0,
        }
    }

    /// The channels to which the edges of a channel lead, the newest edge first.
    pub(crate) fn successors(&self, first: ChannelId) -> Successors<'_>
        requires { first.0 < length self.now.rows }
        ensures { result ≡ channels_of (row_at self.now.rows first.0) }
    {
        Successors {
            edges: &self.edges,
            next: self.newest[first.0 as usize],
        }
    }

    /// Adds an edge once more. It takes no memory.
    pub(crate) fn raise(&mut self, first: ChannelId, second: ChannelId)
        requires within { first.0 < length self.old.rows }
        requires room { edge_count self.old.rows < self.old.capacity }
        requires fits { times_in (row_at self.old.rows first.0) second.0 + 1 < 2 ^ 32 }
        ensures rows { self.new.rows ≡ with_raised self.old.rows first.0 second.0 }
        ensures capacity { self.new.capacity ≡ self.old.capacity }
    {
        let newest = self.newest[first.0 as usize];
        match find(&self.edges, newest, second) {
            Some(key) => self.edges[key].count += 1,
            None => {
                let key = self.edges.insert_reserved(Edge {
                    second,
                    count: 1,
                    next: newest,
                });
                self.newest[first.0 as usize] = Some(key);
            }
        }
    }

    /// Takes an edge back once.
    pub(crate) fn lower(&mut self, first: ChannelId, second: ChannelId)
        requires within { first.0 < length self.old.rows }
        requires newest { CanBeLowered (row_at self.old.rows first.0) second.0 }
        ensures rows { self.new.rows ≡ with_lowered self.old.rows first.0 second.0 }
        ensures capacity { self.new.capacity ≡ self.old.capacity }
    {
        let key = find(&self.edges, self.newest[first.0 as usize], second).unwrap();
        if self.edges[key].count > 1 {
            self.edges[key].count -= 1;
        } else {
            self.newest[first.0 as usize] = self.edges.remove(key).next;
        }
    }
}

/// The channels to which the edges of one channel lead, the newest edge first. They are seen as the list of those
/// that are left.
#[derive(Drop)]
pub(crate) struct Successors<'e> {
    edges: &'e Slab<Edge>,
    /// The key of the edge to the first of them.
    next: Option<usize>,
}

impl<'e> Model for Successors<'e> {
    ghost use Rattle.std.specs.Prelude.{List, ℕ, length, ◌≤◌};
    ghost use Rattle.fab_model.specs.declared.rows.ChannelId.{ChannelId};
    ghost use Rattle.slab.specs.Slab.{slab_len};

    ghost Value = { List ChannelId };

    ghost use Rattle.fab_depgraph.specs.Edges.{IsChain, linked_row, channels_of};

    ghost view = { λ s. channels_of (linked_row (slab_len s.edges.now) s.edges.now.slots s.next) };

    ghost invariant = { λ s. (keys : List ℕ) × IsChain s.edges.now.slots s.next keys × (length keys ≤ slab_len s.edges.now) };
}

impl<'e> Iterator for Successors<'e> {
    type Item = ChannelId;

    ghost next_gives = { YieldsFirst (λ rest. rest) };

    ghost remaining = { item_count (λ rest. rest) };

    fn next(&mut self) -> Option<ChannelId> {
        let edge = &self.edges[self.next?];
        self.next = edge.next;
        Some(edge.second)
    }
}

/// The key of the edge to a channel, among those that are linked from a key on.
fn find(edges: &Slab<Edge>, newest: Option<usize>, second: ChannelId) -> Option<usize>
    requires { (keys : List ℕ) × IsChain edges.now.slots newest keys × (length keys ≤ slab_len edges.now) }
    ensures { (keys : List ℕ) → IsChain edges.now.slots newest keys → IsFound edges.now.slots second.0 keys result }
{
    let mut next = newest;
    while let Some(key) = next {
        let edge = &edges[key];
        if edge.second == second {
            return Some(key);
        }
        next = edge.next;
    }
    None
}
