//! An arena for each lane.
//!
//! Packets on different lanes wait for different buffers, so dependencies of the same channels on two lanes are
//! kept apart. Each lane has an arena of its own.
ghost use Rattle.std.specs.Prelude.{◌≡◌, ℕ, ◌<◌, ◌≤◌, [], length, All, Some, slice_get, IfOk};
ghost use Rattle.std.specs.Borrow.{sem};

use crate::arena::DepGraph;
use std::alloc::{AllocError, Global};
use std::marker::Model;

/// An arena for each lane.
#[derive(Drop)]
pub struct Layers {
    arenas: Vec<DepGraph>,
}

impl Model for Layers {
    ghost use Rattle.std.specs.Prelude.{List, length, ◌<◌};
    ghost use Rattle.fab_depgraph.specs.Listed.{Dependencies};

    ghost Value = { List Dependencies };

    ghost view = { λ l. l.arenas.items };

    ghost invariant = { λ l. length l.arenas.items < 256 };
}

impl Layers {
    ghost use Rattle.fab_depgraph.specs.Lending.{LendsLane};

    /// So many arenas, each without a dependency and without spare.
    pub fn new(alloc: Global, channels: u32, lanes: u8) -> Result<Layers, AllocError>
        requires { (0 < lanes) × (lanes ≤ 15) }
        ensures lanes { IfOk result (λ layers. length layers ≡ lanes) }
        ensures channels { IfOk result (λ layers. All (λ graph. graph.channels ≡ channels) layers) }
        ensures empty { IfOk result (λ layers. All (λ graph. graph.listed ≡ []) layers) }
        ensures spare { IfOk result (λ layers. All (λ graph. graph.spare ≡ 0) layers) }
    {
        let mut arenas = Vec::with_capacity(alloc, lanes as usize)?;
        for _ in 0..lanes {
            arenas.push(DepGraph::new(alloc, channels)?)?;
        }
        Ok(Layers { arenas })
    }

    /// How many there are.
    pub fn lanes(&self) -> u8
        ensures { result ≡ length self.now }
    {
        self.arenas.len() as u8
    }

    /// The arena of a lane.
    pub fn lane(&self, lane: u8) -> &DepGraph
        requires { lane < length self.now }
        ensures { slice_get self.now lane ≡ Some result.now }
    {
        &self.arenas[lane as usize]
    }

    /// The arena of a lane, to change it. The others stay.
    pub fn lane_mut(&mut self, lane: u8) -> &mut DepGraph
        requires { lane < length self.old }
        ensures value { slice_get self.old lane ≡ Some result.now }
        ensures* writes_back { sem 𝓛 (LendsLane self.entry lane result) }
    {
        &mut self.arenas[lane as usize]
    }
}
