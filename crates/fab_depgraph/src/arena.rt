//! An arena of channel dependencies that closes no walk and takes additions back.
//!
//! Dependencies are added one after the other, each as often as it comes, and taken back in the reverse order. Each
//! channel has a number, and the numbers rise along every dependency. An addition along which they rise already
//! needs no search. For another one the channels are searched from its second, among those whose numbers lie
//! between the two: where its first is met a walk would be closed, and else the numbers of that range are shared
//! out anew. Taking back keeps the numbers, since they rise along fewer dependencies as well.
//!
//! An addition takes time linear in the edges of its first channel, and where it searches, in the range of numbers
//! and the edges that begin there; taking one back takes time linear in the edges of its first channel. Memory is
//! 33 bytes a channel, made at first, and 40 bytes an addition, made by `reserve`.
//!
//! Source: A. Marchetti-Spaccamela, U. Nanni, H. Rohnert, "Maintaining a Topological Order under Edge Insertions",
//! Information Processing Letters 59 (1996); D. J. Pearce, P. H. J. Kelly, "A Dynamic Topological Sort Algorithm for
//! Directed Acyclic Graphs", ACM Journal of Experimental Algorithmics 11 (2007).
ghost use Rattle.std.specs.Prelude.{◌≡◌, ℕ, ◌+◌, ◌-◌, ◌<◌, ◌≤◌, ◌^◌, ◌⊎◌, [], ◌∷◌, ◌++◌, true, false, length, take, All, IfOk, OnOk, OnErr};
ghost use Rattle.fab_graph.specs.Walks.{IsAcyclic, HasClosedWalk};
ghost use Rattle.fab_depgraph.specs.Listed.{IsListed, times_listed, number, NumbersDiffer, NumbersRise, IsWithin};
ghost use Rattle.fab_depgraph.specs.Bound.{present_between, AsksNothing};

use crate::dep::{Added, Dep, Mark};
use crate::edges::Edges;
use crate::order::Order;
use crate::search::Search;
use crate::steps::Steps;
use fab_model::ChannelId;
use std::alloc::{AllocError, Global};
use std::marker::Model;
use std::sync::ledger::Ledger;

/// Dependencies of channels that close no walk, as the list of those added and not taken back.
#[derive(Drop)]
pub struct DepGraph {
    edges: Edges,
    order: Order,
    search: Search,
    /// The dependencies in the order in which they were added.
    trail: Vec<Dep>,
    /// How many more can be added without memory.
    room: u32,
}

impl Model for DepGraph {
    ghost use Rattle.std.specs.Prelude.{length, vec_capacity};
    ghost use Rattle.fab_depgraph.specs.Listed.{Dependencies};
    ghost use Rattle.fab_depgraph.specs.Arena.{IsArena};

    ghost Value = { Dependencies };

    ghost view = { λ g. record { channels = length g.order; listed = g.trail.items; spare = g.room; numbers = g.order } };

    ghost invariant = { λ g. IsArena g.edges g.order g.search g.trail.items g.room (vec_capacity g.trail) };
}

impl DepGraph {
    /// No dependency, and no spare.
    pub fn new(alloc: Global, channels: u32) -> Result<DepGraph, AllocError>
        ensures channels { IfOk result (λ graph. graph.channels ≡ channels) }
        ensures empty { IfOk result (λ graph. graph.listed ≡ []) }
        ensures spare { IfOk result (λ graph. graph.spare ≡ 0) }
    {
        Ok(DepGraph {
            edges: Edges::new(alloc, channels)?,
            order: Order::new(alloc, channels)?,
            search: Search::new(alloc, channels)?,
            trail: Vec::new(alloc),
            room: 0,
        })
    }

    /// Makes room for so many additions, which then take no memory.
    pub fn reserve(&mut self, more: u32) -> Result<(), AllocError>
        requires { length self.old.listed + more < 2 ^ 32 }
        ensures ok { OnOk result (more ≤ self.new.spare) }
        ensures grows { OnOk result (self.old.spare ≤ self.new.spare) }
        ensures channels { self.new.channels ≡ self.old.channels }
        ensures listed { self.new.listed ≡ self.old.listed }
        ensures numbers { self.new.numbers ≡ self.old.numbers }
        ensures err { OnErr result (self.new ≡ self.old) }
    {
        let room = self.room.max(more);
        self.edges.reserve(self.trail.len() + room as usize)?;
        self.trail.reserve(room as usize)?;
        self.room = room;
        Ok(())
    }

    /// The length of the list.
    pub fn mark(&self) -> Mark
        ensures length { result.0 ≡ length self.now.listed }
        ensures acyclic { IsAcyclic (IsListed self.now.listed) }
        ensures within { All (λ d. IsWithin self.now.channels d) self.now.listed }
    {
        Mark(self.trail.len() as u32)
    }

    /// How often a dependency stands in the list.
    pub fn count(&self, dep: Dep) -> u32
        ensures { result ≡ times_listed self.now.listed dep }
    {
        self.edges.count(dep.first, dep.second)
    }

    /// The number of a channel.
    pub fn number(&self, channel: ChannelId) -> u32
        requires { channel.0 < self.now.channels }
        ensures number { result ≡ number self.now channel.0 }
        ensures differ { NumbersDiffer self.now }
        ensures rise { NumbersRise self.now }
    {
        self.order.number(channel)
    }

    /// Adds a dependency, unless a walk would be closed. It takes no memory.
    pub fn add<L: Ledger>(&mut self, dep: Dep, steps: &mut Steps<L>) -> Added
        requires within { IsWithin self.old.channels dep }
        requires spare { 0 < self.old.spare }
        ensures closes { result ≡ Added.WouldClose → HasClosedWalk (IsListed (self.old.listed ++ dep ∷ [])) }
        ensures stays { result ≡ Added.WouldClose → self.new ≡ self.old }
        ensures acyclic { result ≡ Added.Yes → IsAcyclic (IsListed (self.old.listed ++ dep ∷ [])) }
        ensures added { result ≡ Added.Yes → self.new.listed ≡ self.old.listed ++ dep ∷ [] }
        ensures spare { result ≡ Added.Yes → self.old.spare ≡ self.new.spare + 1 }
        ensures channels { self.new.channels ≡ self.old.channels }
        // A step is an edge looked at.
        ensures counted { steps.old ≤ steps.new }
        ensures no_step { AsksNothing self.old dep → steps.new ≡ steps.old }
        ensures few_steps { steps.new ≤ steps.old + present_between self.old dep }
    {
        if !self.make_rise(dep, steps) {
            return Added::WouldClose;
        }
        self.append(dep);
        Added::Yes
    }

    /// Takes back all additions since the mark, the last one first. It takes no memory.
    pub fn undo_to<L: Ledger>(&mut self, mark: Mark, steps: &mut Steps<L>)
        requires { mark.0 ≤ length self.old.listed }
        ensures listed { self.new.listed ≡ take mark.0 self.old.listed }
        ensures spare { self.new.spare ≡ self.old.spare + (length self.old.listed - mark.0) }
        ensures channels { self.new.channels ≡ self.old.channels }
        ensures numbers { self.new.numbers ≡ self.old.numbers }
        ensures counted { steps.old ≤ steps.new }
        ensures few_steps { steps.new ≤ steps.old + (length self.old.listed - mark.0) }
    {
        while self.mark().0 > mark.0 {
            steps.tick();
            self.undo();
        }
    }

    /// Makes the numbers rise along a dependency, unless a walk leads from its second channel to its first.
    fn make_rise<L: Ledger>(&mut self, dep: Dep, steps: &mut Steps<L>) -> bool
        requires within { IsWithin self.old.channels dep }
        ensures closes { result ≡ false → HasClosedWalk (IsListed (self.old.listed ++ dep ∷ [])) }
        ensures stays { result ≡ false → self.new ≡ self.old }
        ensures rises { result ≡ true → number self.new dep.first.0 < number self.new dep.second.0 }
        ensures rest { self.new ≡ record self.old { numbers = self.new.numbers } }
        ensures counted { steps.old ≤ steps.new }
        ensures no_step { AsksNothing self.old dep → steps.new ≡ steps.old }
        ensures few_steps { steps.new ≤ steps.old + present_between self.old dep }
    {
        let low = self.order.number(dep.second);
        let high = self.order.number(dep.first);
        if high < low {
            return true;
        }
        if dep.first == dep.second {
            return false;
        }
        let first_met = self
            .search
            .meets(&self.edges, &self.order, dep.second, dep.first, steps);
        if first_met {
            return false;
        }
        self.order.move_behind(low, high, self.search.marks());
        true
    }

    /// Appends a dependency along which the numbers rise.
    fn append(&mut self, dep: Dep)
        requires within { IsWithin self.old.channels dep }
        requires spare { 0 < self.old.spare }
        requires rises { number self.old dep.first.0 < number self.old dep.second.0 }
        ensures added { self.new ≡ record self.old { listed = self.old.listed ++ dep ∷ []; spare = self.old.spare - 1 } }
        ensures acyclic { IsAcyclic (IsListed self.new.listed) }
    {
        self.edges.raise(dep.first, dep.second);
        self.trail.push_reserved(dep);
        self.room -= 1;
    }

    /// Takes back the last addition.
    fn undo(&mut self)
        requires { 0 < length self.old.listed }
        ensures { self.new ≡ record self.old { listed = take (length self.old.listed - 1) self.old.listed; spare = self.old.spare + 1 } }
    {
        let dep = self.trail.pop().unwrap();
        self.edges.lower(dep.first, dep.second);
        self.room += 1;
    }
}
