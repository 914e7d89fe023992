//! Loads of packets, and moves of single packets. A packet stands on a virtual channel of its route, and moves to the
//! next one where no packet stands there.
//!
//! Each virtual channel has a cell. A call on one virtual channel takes the time of going along its packet's route,
//! and no memory; the others go through all cells once.
ghost use Rattle.std.specs.Prelude.{◌≡◌, ℕ, ◌+◌, ◌<◌, ◌≤◌, length, IfOk, OnErr, Option, Some, None};
ghost use Rattle.fab_tables.specs.Dependencies.{node_of};
ghost use Rattle.fab_tables.specs.Fit.{PlanFits};
ghost use Rattle.fab_certify.specs.Certificate.{IsSoundPlan};
ghost use Rattle.fab_drain.specs.Loads.{IsLoad, IsPacket, IsPlace, loaded_at, with_cell, channel_of_cell, emptied, packet_count, hops_left};
ghost use Rattle.fab_drain.specs.Moves.{put_in, advanced, next_at, IsMove};

use crate::packet::{Loaded, Moved, Packet, Put};
use crate::packet_hops::{hop_at, hop_count};
use fab_certify::Ring;
use fab_model::{ChannelId, Fabric};
use fab_tables::{Plan, Verdict, VirtualChannel};
use std::alloc::{AllocError, Global};
use std::marker::Model;

/// A load of a plan: by channel and lane the packet that stands there, with its remaining hops. It is used with the
/// fabric and the plan for which it was filled.
#[derive(Drop)]
pub struct State {
    pub(crate) lanes: u8,
    pub(crate) cells: Vec<Option<Loaded>>,
}

impl Model for State {
    ghost use Rattle.fab_drain.specs.Loads.{Load, AreCells};

    ghost Value = { Load };

    ghost view = { λ s. record { count = s.lanes; cells = s.cells.items } };

    ghost invariant = { λ s. AreCells (record { count = s.lanes; cells = s.cells.items }) };
}

/// What filling a fabric answers.
#[derive(Drop)]
pub enum Filled {
    Full(State),
    /// The first fault that no numbers can mend.
    Refused(Verdict),
}

/// How draining ends.
#[derive(Drop)]
pub enum Drained {
    Empty { moves: u64 },
    /// Packets wait for each other. The number of a virtual channel is its channel times the lane
    /// count plus its lane.
    Waiting { moves: u64, ring: Ring },
}

impl State {
    /// Takes all packets out.
    pub fn clear(&mut self)
        ensures { self.new ≡ emptied self.old }
    {
        self.cells.fill(None);
    }

    /// How many packets there are.
    pub fn packets(&self) -> u32
        ensures { result ≡ packet_count self.now }
    {
        let mut packets = 0;
        let cells = self.cells.as_slice();
        for cell in cells {
            if cell.is_some() {
                packets += 1;
            }
        }
        packets
    }

    /// The sum of the remaining hops.
    pub fn remaining(&self) -> u64
        ensures { result ≡ hops_left self.now }
    {
        let mut hops = 0;
        let cells = self.cells.as_slice();
        for cell in cells {
            if let Some(loaded) = cell {
                hops += u64::from(loaded.remaining);
            }
        }
        hops
    }

    /// Puts a packet where it stands, unless another one stands there.
    pub fn put(&mut self, fabric: &Fabric, plan: &Plan, packet: Packet) -> Put
        requires fits { PlanFits fabric.now plan.now }
        requires admitted { IsSoundPlan fabric.now plan.now }
        requires load { IsLoad fabric.now plan.now self.old }
        requires packet { IsPacket fabric.now plan.now packet }
        ensures put { (result, self.new) ≡ put_in fabric.now plan.now self.old packet }
        ensures load { IsLoad fabric.now plan.now self.new }
    {
        let hops = hop_count(fabric, plan, fabric.terminal(packet.terminal), packet.lid);
        match hop_at(fabric, plan, packet, packet.position) {
            Some(at) if self.get(at).is_none() => {
                let remaining = hops - packet.position;
                self.set(at, Some(Loaded { packet, remaining }));
                Put::Placed
            }
            _ => Put::Taken,
        }
    }

    /// Moves the packet on a virtual channel, if there is one and it doesn't wait.
    pub fn advance(&mut self, fabric: &Fabric, plan: &Plan, at: VirtualChannel) -> Moved
        requires fits { PlanFits fabric.now plan.now }
        requires admitted { IsSoundPlan fabric.now plan.now }
        requires load { IsLoad fabric.now plan.now self.old }
        requires at { at.channel.0 < length fabric.now.channels }
        ensures moved { (result, self.new) ≡ advanced fabric.now plan.now self.old at }
        // Each move takes one from the sum of the remaining hops.
        ensures hop { IsMove result → hops_left self.new + 1 ≡ hops_left self.old }
        ensures load { IsLoad fabric.now plan.now self.new }
    {
        let next = self.next_of(fabric, plan, at);
        self.advance_to(fabric, plan, at, next)
    }

    /// The virtual channel to which the packet on a virtual channel goes next. None where it is at its last position,
    /// and where no packet stands there.
    pub(crate) fn next_of(
        &self,
        fabric: &Fabric,
        plan: &Plan,
        at: VirtualChannel,
    ) -> Option<VirtualChannel>
        requires fits { PlanFits fabric.now plan.now }
        requires admitted { IsSoundPlan fabric.now plan.now }
        requires load { IsLoad fabric.now plan.now self.now }
        requires at { at.channel.0 < length fabric.now.channels }
        ensures { result ≡ next_at fabric.now plan.now self.now at }
    {
        let packet = self.get(at)?.packet;
        hop_at(fabric, plan, packet, packet.position + 1)
    }

    /// Moves the packet on a virtual channel, which goes to this one next.
    pub(crate) fn advance_to(
        &mut self,
        fabric: &Fabric,
        plan: &Plan,
        at: VirtualChannel,
        next: Option<VirtualChannel>,
    ) -> Moved
        requires fits { PlanFits fabric.now plan.now }
        requires admitted { IsSoundPlan fabric.now plan.now }
        requires load { IsLoad fabric.now plan.now self.old }
        requires at { at.channel.0 < length fabric.now.channels }
        requires next { next ≡ next_at fabric.now plan.now self.old at }
        ensures moved { (result, self.new) ≡ advanced fabric.now plan.now self.old at }
    {
        let Some(Loaded { packet, remaining }) = self.get(at) else {
            return Moved::Nothing;
        };
        let Some(next) = next else {
            self.set(at, None);
            return Moved::Left;
        };
        if self.get(next).is_some() {
            return Moved::Waits;
        }
        let packet = Packet {
            position: packet.position + 1,
            ..packet
        };
        self.set(at, None);
        self.set(
            next,
            Some(Loaded {
                packet,
                remaining: remaining - 1,
            }),
        );
        Moved::Went
    }

    /// The packet on a virtual channel, with its remaining hops.
    pub(crate) fn get(&self, at: VirtualChannel) -> Option<Loaded>
        requires { at.lane < self.now.count → node_of self.now.count at < length self.now.cells }
        ensures { result ≡ loaded_at self.now at }
    {
        if at.lane < self.lanes {
            self.cells[self.number_of(at) as usize]
        } else {
            None
        }
    }

    /// Puts a packet on a virtual channel, or takes it out.
    pub(crate) fn set(&mut self, at: VirtualChannel, loaded: Option<Loaded>)
        requires { IsPlace self.old at }
        ensures { self.new ≡ with_cell self.old at loaded }
    {
        let number = self.number_of(at);
        self.cells[number as usize] = loaded;
    }

    /// The number of a virtual channel: its channel times the lane count plus its lane.
    pub(crate) fn number_of(&self, at: VirtualChannel) -> u32
        requires { node_of self.now.count at < length self.now.cells }
        ensures { result ≡ node_of self.now.count at }
    {
        at.channel.0 * u32::from(self.lanes) + u32::from(at.lane)
    }

    /// The virtual channel of a number.
    pub(crate) fn channel_of(&self, number: u32) -> VirtualChannel
        ensures { result ≡ channel_of_cell self.now.count number }
    {
        let lanes = u32::from(self.lanes);
        VirtualChannel {
            channel: ChannelId(number / lanes),
            lane: (number % lanes) as u8,
        }
    }

    /// An equal load.
    pub(crate) fn copy(&self, alloc: Global) -> Result<State, AllocError>
        ensures { IfOk result (λ copy. copy ≡ self.now) }
    {
        Ok(State {
            lanes: self.lanes,
            cells: Vec::from_slice(alloc, &self.cells)?,
        })
    }
}
