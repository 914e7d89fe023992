//! The escape trees of a lane: one for each component of the fabric.
//!
//! Each switch but the root is linked to its parent. An escape route goes up by parent channels, then down by their
//! reverses. Where the destination lies below a switch, the way up from the destination comes to the switch by the
//! link of one of its children: that child is found by jumps (see `jumps`), in O(log D) steps in a tree of depth D.
//!
//! For S switches, C channels and trees of depth D, making them takes O(S * (S + D) + C) time beside the centre
//! orders, and 26 bytes for each switch. A switch's root takes constant time, a next channel O(log D), and neither
//! takes memory.
//!
//! Source: J. Domke, T. Hoefler, S. Matsuoka, "Routing on the Dependency Graph: A New Approach to Deadlock-Free
//! High-Performance Routing", HPDC 2016.
ghost use Rattle.std.specs.Prelude.{◌≡◌, ℕ, ◌<◌, length, IfOk, option_map};
ghost use Rattle.fab_model.specs.Topology.{channel_id};
ghost use Rattle.fab_hops.specs.HopCounts.{AreHops};
ghost use Rattle.fab_tables.specs.TreeWalks.{IsTree};
ghost use Rattle.fab_escape.specs.Forest.{root_of, link_into, escape_next, escape_tree};
ghost use Rattle.fab_escape.specs.Trees.{IsEscapeForest};
ghost use Rattle.fab_escape.specs.Laws.{EscapeIsAcyclic, NumbersRise, RoutesLead, RepeatsNoSwitch, StaysInTree, EndsWhereItShould};

use crate::jumps::{depths_of, jumps_of};
use crate::links::{Link, links_of};
use crate::roots::roots_of;
use fab_hops::Hops;
use fab_model::{ChannelId, Fabric, SwitchId};
use std::alloc::{AllocError, Global};
use std::marker::Model;

/// The escape trees of a lane, one for each component. They are seen as the root and the link of each switch.
#[derive(Drop)]
pub struct Escape {
    // each by switch
    roots: Vec<u32>,
    links: Vec<Option<Link>>,
    depths: Vec<u16>,
    jumps: Vec<u32>,
}

impl Model for Escape {
    ghost use Rattle.fab_escape.specs.Forest.{Forest};
    ghost use Rattle.fab_escape.specs.Trees.{IsForest};
    ghost use Rattle.fab_escape.specs.Climbing.{AreDepths, AreJumps};

    ghost Value = { Forest };

    ghost view = { λ e. record { roots = e.roots.items; links = e.links.items } };

    ghost invariant = { λ e. IsForest (record { roots = e.roots.items; links = e.links.items })
        × AreDepths (record { roots = e.roots.items; links = e.links.items }) e.depths.items
        × AreJumps (record { roots = e.roots.items; links = e.links.items }) e.jumps.items };
}

impl Escape {
    /// The escape trees of a lane. The root of a component of n switches is the switch at place `lane mod n` of its
    /// centre order; the parent channel of any other switch is its least channel to a switch with one hop less to the
    /// root. The error is want of memory.
    pub fn of(alloc: Global, fabric: &Fabric, hops: &Hops, lane: u8) -> Result<Escape, AllocError>
        requires hops { AreHops fabric.now hops.now }
        requires lane { lane < 15 }
        ensures trees { IfOk result (λ escape. IsEscapeForest fabric.now lane escape) }
        // From every switch, the channels towards another make a tree.
        ensures routes { IfOk result (λ escape. (to : ℕ) → to < length fabric.now.switches → IsTree fabric.now (escape_tree escape to)) }
        ensures lead { IfOk result (λ escape. RoutesLead fabric.now escape) }
        ensures once { IfOk result (λ escape. RepeatsNoSwitch fabric.now escape) }
        // Each of their channels is a parent channel or the reverse of one.
        ensures stay { IfOk result (λ escape. StaysInTree fabric.now escape) }
        // There is no next channel exactly where the two are equal or not connected.
        ensures none { IfOk result (λ escape. EndsWhereItShould fabric.now escape) }
        // The trees alone number the channels, so that numbers rise along the escape dependencies of the lane, at any
        // lane count: they close no walk.
        ensures rise { IfOk result (λ escape. NumbersRise fabric.now lane escape) }
        ensures acyclic { IfOk result (λ escape. EscapeIsAcyclic fabric.now lane escape) }
    {
        let roots = roots_of(alloc, fabric, hops, lane)?;
        let links = links_of(alloc, fabric, hops, &roots)?;
        let depths = depths_of(alloc, fabric, hops, &roots)?;
        let jumps = jumps_of(alloc, &links, &depths)?;
        Ok(Escape {
            roots,
            links,
            depths,
            jumps,
        })
    }

    /// The root of the tree in which a switch lies. Constant time, no memory.
    pub fn root(&self, s: SwitchId) -> SwitchId
        requires { s.0 < length self.now.roots }
        ensures { result.0 ≡ root_of self.now s.0 }
    {
        SwitchId(self.roots[s.0 as usize])
    }

    /// The next channel on the way from one switch to another within the tree. None exactly where the two are equal
    /// or not connected. No memory, and time in the logarithm of the tree's depth.
    pub fn next(&self, from: SwitchId, to: SwitchId) -> Option<ChannelId>
        requires from { from.0 < length self.now.roots }
        requires to { to.0 < length self.now.roots }
        ensures { result ≡ option_map channel_id (escape_next self.now from.0 to.0) }
    {
        if from == to || self.root(from) != self.root(to) {
            return None;
        }
        match self.link_into(from, to) {
            Some(below) => Some(ChannelId(below.reverse)),
            None => match self.links[from.0 as usize] {
                Some(own) => Some(ChannelId(own.channel)),
                None => None,
            },
        }
    }

    /// The link by which the way up from `to` comes to `from`; None where it does not.
    fn link_into(&self, from: SwitchId, to: SwitchId) -> Option<Link>
        requires from { from.0 < length self.now.roots }
        requires to { to.0 < length self.now.roots }
        ensures { result ≡ link_into self.now from.0 to.0 }
    {
        let depth = self.depths[from.0 as usize];
        let mut at = to.0;
        while let Some(link) = self.links[at as usize] {
            let jump = self.jumps[at as usize];
            if self.depths[jump as usize] > depth {
                at = jump;
            } else if self.depths[link.parent as usize] > depth {
                at = link.parent;
            } else if link.parent == from.0 {
                return Some(link);
            } else {
                return None;
            }
        }
        None
    }
}
