//! Weights of channels, by which later destinations keep away from channels that earlier ones load: the balance of the
//! single-source shortest path engines (Domke, Hoefler and Nagel).
//!
//! Memory: a number of 64 bits for each channel, and two of 32 for each switch, as room to sum terminals along a tree.
ghost use Rattle.std.specs.Prelude.{◌≡◌, ℕ, ◌+◌, ◌<◌, length, Some, slice_get, IfOk};
ghost use Rattle.fab_model.specs.Topology.{lids_of};
ghost use Rattle.fab_sssp.specs.WeightTables.{start_weights, weight_of, WeightsFit, AreWeights};
ghost use Rattle.fab_tables.specs.TreeWalks.{IsTree, terminals_through};

use crate::passing::add_terminals;
use fab_model::{ChannelId, Fabric};
use fab_tables::Tree;
use std::alloc::{AllocError, Global};
use std::marker::Model;

/// A weight for each channel, and how many trees have raised them.
#[derive(Drop)]
pub struct Weights {
    by_channel: Vec<u64>,
    trees: u32,
    // room for `raise`, switch by switch
    arrived: Vec<u32>,
    pending: Vec<u32>,
}

impl Model for Weights {
    ghost use Rattle.std.specs.Prelude.{◌≡◌, length};
    ghost use Rattle.fab_sssp.specs.WeightTables.{WeightTable, AreWeights};

    ghost Value = { WeightTable };

    ghost view = { λ w. record { weights = w.by_channel.items; switches = length w.arrived.items; raised = w.trees } };

    ghost invariant = { λ w. AreWeights (record { weights = w.by_channel.items; switches = length w.arrived.items; raised = w.trees })
        × (length w.pending.items ≡ length w.arrived.items) };
}

impl Weights {
    /// Every channel at the start weight: with S switches, T terminals and L LIDs in use, 1 + S * T * L. The error is
    /// want of memory.
    pub fn new(alloc: Global, fabric: &Fabric) -> Result<Weights, AllocError>
        ensures { IfOk result (λ weights. weights ≡ start_weights fabric.now) }
    {
        let switches = fabric.switches();
        let start = 1
            + u64::from(switches) * u64::from(fabric.terminals()) * u64::from(fabric.lids());
        Ok(Weights {
            by_channel: vec![in alloc; start; fabric.channels() as usize]?,
            trees: 0,
            arrived: vec![in alloc; 0; switches as usize]?,
            pending: vec![in alloc; 0; switches as usize]?,
        })
    }

    /// The weight of a channel.
    pub fn of(&self, c: ChannelId) -> u64
        requires { c.0 < length self.now.weights }
        ensures weight { slice_get self.now.weights c.0 ≡ Some result }
        ensures positive { 0 < result }
        ensures kept { AreWeights self.now }
    {
        self.by_channel[c.0 as usize]
    }

    /// Adds to each channel the number of terminals whose walk along the tree contains it. It takes no memory, and linear
    /// time in switches and terminals.
    pub fn raise(&mut self, fabric: &Fabric, tree: &Tree)
        requires made_for { WeightsFit fabric.now self.old }
        requires tree { IsTree fabric.now tree.now }
        requires few { self.old.raised < length (lids_of fabric.now) }
        ensures weights { (c : ℕ) → c < length fabric.now.channels →
            weight_of self.new c ≡ weight_of self.old c + terminals_through fabric.now tree.now c }
        ensures made_for { WeightsFit fabric.now self.new }
        ensures raised { self.new.raised ≡ self.old.raised + 1 }
    {
        add_terminals(
            fabric,
            tree,
            &mut self.by_channel,
            &mut self.arrived,
            &mut self.pending,
        );
        self.trees += 1;
    }
}
