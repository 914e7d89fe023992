//! A search forward along edges, cut off at a number.
//!
//! Numbers of the channels rise along every edge, so a walk from one channel to another stays among the channels
//! whose numbers lie between theirs. The search goes through these, in the order in which they are found, and looks
//! at each of their edges once: time linear in these edges. Its memory is made before: 5 bytes a channel.
//!
//! Source: A. Marchetti-Spaccamela, U. Nanni, H. Rohnert, "Maintaining a Topological Order under Edge Insertions",
//! Information Processing Letters 59 (1996).
ghost use Rattle.std.specs.Prelude.{◌≡◌, ◌≢◌, ℕ, ◌+◌, ◌^◌, ◌<◌, ◌≤◌, true, false, [], length, slice_index, slice_get, replicate, false, IfOk, All, Contains};
ghost use Rattle.fab_graph.specs.Walks.{Walk};
ghost use Rattle.fab_model.specs.Topology.{channel_id};
ghost use Rattle.fab_depgraph.specs.Order.{is_reached};
ghost use Rattle.fab_depgraph.specs.Search.{IsSearch, no_search, with_found, Precedes, FindsMore, AreFound, AreRising, IsClosed, IsShort};

use crate::edges::{Edges, Successors};
use crate::order::Order;
use crate::steps::Steps;
use fab_model::ChannelId;
use std::alloc::{AllocError, Global};
use std::marker::Model;
use std::sync::ledger::Ledger;

/// The channels that a search has found.
#[derive(Drop)]
pub(crate) struct Search {
    /// Channel by channel whether it was found.
    marks: Vec<bool>,
    /// The found channels, in the order in which they were found.
    found: Vec<ChannelId>,
}

impl Model for Search {
    ghost use Rattle.std.specs.Prelude.{length, ◌≤◌, vec_capacity};
    ghost use Rattle.fab_depgraph.specs.Search.{Search as Searched, IsSearch};

    ghost Value = { Searched };

    ghost view = { λ s. record { marks = s.marks.items; found = s.found.items } };

    ghost invariant = { λ s. IsSearch (record { marks = s.marks.items; found = s.found.items }) × (length s.marks.items ≤ vec_capacity s.found) };
}

impl Search {
    /// Room for a search, which has found nothing.
    pub(crate) fn new(alloc: Global, channels: u32) -> Result<Search, AllocError>
        ensures { IfOk result (λ search. search ≡ no_search channels) }
    {
        Ok(Search {
            marks: vec![in alloc; false; channels as usize]?,
            found: Vec::with_capacity(alloc, channels as usize)?,
        })
    }

    /// Channel by channel whether it was found.
    pub(crate) fn marks(&self) -> &[bool]
        ensures { result.now ≡ self.now.marks }
    {
        self.marks.as_slice()
    }

    /// Forgets what was found.
    fn clear(&mut self)
        ensures { self.new ≡ no_search (length self.old.marks) }
    {
        unmark(&self.found, &mut self.marks);
        self.found.clear();
    }

    /// Searches forward from one channel, and answers whether it comes to the last one. If not, all channels are
    /// found to which walks lead below the last one.
    pub(crate) fn meets<L: Ledger>(
        &mut self,
        edges: &Edges,
        order: &Order,
        from: ChannelId,
        last: ChannelId,
        steps: &mut Steps<L>,
    ) -> bool
        requires each { length self.old.marks ≡ length order.now }
        requires rising { AreRising edges.now.rows order.now }
        requires from { from.0 < length order.now }
        requires last { last.0 < length order.now }
        requires below { slice_index order.now from.0 < slice_index order.now last.0 }
        ensures meets { result ≡ true → (n : ℕ) × Walk (Precedes edges.now.rows) n from.0 last.0 }
        ensures closed { result ≡ false → IsClosed edges.now.rows order.now from.0 last.0 self.new }
        ensures each { length self.new.marks ≡ length order.now }
        ensures steps { (taken : ℕ) × (steps.new ≡ steps.old + taken) × IsShort edges.now.rows order.now from.0 last.0 self.new taken }
    {
        self.clear();
        self.find(from);
        let mut next = 0;
        while let Some(channel) = self.found_at(next) {
            if self.look_along(edges.successors(channel), order, last, steps) {
                return true;
            }
            next += 1;
        }
        false
    }

    /// The channel that was found at a place.
    fn found_at(&self, place: usize) -> Option<ChannelId>
        ensures channel { result ≡ slice_get self.now.found place }
        ensures short { length self.now.found < 2 ^ 64 }
    {
        self.found.get(place).copied()
    }

    /// Looks at the edges that lead to some channels: finds those below the last one, up to the last one itself.
    /// Whether that one is among them.
    fn look_along<L: Ledger>(
        &mut self,
        successors: Successors,
        order: &Order,
        last: ChannelId,
        steps: &mut Steps<L>,
    ) -> bool
        requires kept { IsSearch self.old }
        requires each { length self.old.marks ≡ length order.now }
        requires known { All (λ channel. channel.0 < length order.now) successors }
        requires last { last.0 < length order.now }
        ensures meets { result ≡ true → Contains successors.entry last }
        ensures passes { result ≡ false → AreFound self.new successors.entry order.now last.0 (slice_index order.now last.0) }
        ensures more { FindsMore self.old self.new successors.entry order.now (slice_index order.now last.0) }
        ensures kept { IsSearch self.new }
        ensures counted { steps.old ≤ steps.new }
        ensures few { steps.new ≤ steps.old + length successors.entry }
    {
        let bound = order.number(last);
        for successor in successors {
            steps.tick();
            if successor == last {
                return true;
            }
            if order.number(successor) < bound {
                self.find(successor);
            }
        }
        false
    }

    /// Finds a channel.
    fn find(&mut self, channel: ChannelId)
        requires { channel.0 < length self.old.marks }
        ensures found { self.new ≡ with_found self.old channel }
        ensures kept { IsSearch self.new }
    {
        let mark = &mut self.marks[channel.0 as usize];
        if !*mark {
            *mark = true;
            self.found.push_reserved(channel);
        }
    }
}

/// Takes the marks from channels, beside which none has one.
fn unmark(channels: &[ChannelId], marks: &mut [bool])
    requires known { All (λ channel. channel.0 < length marks.old) channels.now }
    requires marked { (c : ℕ) → is_reached marks.old c ≡ true → Contains channels.now (channel_id c) }
    ensures { marks.new ≡ replicate (length marks.old) false }
{
    for channel in channels {
        marks[channel.0 as usize] = false;
    }
}
