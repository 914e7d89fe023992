//! Deadlock-free single-source shortest path routing (DFSSSP): the rings of a lane's dependencies are broken.
//!
//! The tables are those of least weight. A path is a source and a LID connected to it; all begin on lane 0. Lane
//! after lane, as long as the channels that follow each other on the lane's paths close a ring, all paths over the
//! first ring's weakest edge go to the next lane. A ring in the last lane is the refusal.
//!
//! Source: Domke, Hoefler and Nagel, "Deadlock-Free Oblivious Routing for Arbitrary Topologies", 2011; OpenSM's
//! document on routing, engine `dfsssp`. Dally and Seitz: what closes no ring is free of deadlock.
//!
//! The edges of a lane are counted once, when its turn comes, and lowered as paths leave it. The least channel on a
//! closed walk never falls within a lane, since the lane only loses edges; so channel after channel is looked at, and the
//! rings through it are broken until it is on none. Rings of one length through a channel share a search back from it, as
//! far as they are long; a ring takes a step for each edge that leaves its channels, and what moving the paths over its
//! weakest edge takes. Memory: that of the plan, of one lane's edges, and of the paths over one edge.
ghost use Rattle.std.specs.Prelude.{◌≡◌, ◌+◌, ◌<◌, ◌≤◌, length, IfOk, IfErr, OnOk};
ghost use Rattle.fab_model.specs.WellFormed.{IsFabric};
ghost use Rattle.fab_tables.specs.Certified.{IsCertified};
ghost use Rattle.fab_tables.specs.Fit.{PlanFits, IsTidy};
ghost use Rattle.fab_sssp.specs.LeastWeightTables.{AreLeastWeightTables};
ghost use Rattle.fab_dfsssp.specs.Assigned.{IsBrokenBelow, EndsAtRing};
ghost use Rattle.fab_dfsssp.specs.BrokenLanes.{AreBrokenLanes};
ghost use Rattle.fab_dfsssp.specs.DfssspPlans.{IsDfssspPlan, IsDfssspFault};
ghost use Rattle.fab_dfsssp.specs.LaneCounts.{CountsLane};
ghost use Rattle.fab_dfsssp.specs.LaneEdges.{HasNoRingBelow};

use crate::counted_edges::CountedEdges;
use crate::lane_edges::lane_edges;
use crate::least_edge::weakest_edge;
use crate::moving::move_paths;
use crate::nearness::nearness;
use crate::numbered::numbered_plan;
use crate::ring_search::ring_through;
use crate::starting::start_lanes;
use fab_model::Fabric;
use fab_rings::Ring;
use fab_sssp::lay;
use fab_tables::{Lanes, Plan, Tables};
use std::alloc::{AllocError, Global};
use thiserror::Error;

/// Why there is no plan on so many lanes.
#[derive(Debug, Drop, Error)]
pub enum BreakFault {
    /// The ring that is met in the last lane, as a list of channel numbers.
    #[error("another lane is needed for a ring")]
    NeedsLane { ring: Ring },
    #[error("out of memory")]
    Memory(AllocError),
}

impl From<AllocError> for BreakFault {
    ghost use Rattle.std.specs.Prelude.{◌≡◌};
    ghost use Rattle.fab_dfsssp.specs.declared.breaking.BreakFault.TheVariants.{Memory};

    ghost from_gives = { λ refused fault. fault ≡ Memory refused };

    fn from(refused: AllocError) -> BreakFault {
        BreakFault::Memory(refused)
    }
}

/// The plan of least weight on so many lanes.
pub fn dfsssp(alloc: Global, fabric: &Fabric, lanes: u8) -> Result<Plan, BreakFault>
    requires lanes { (0 < lanes) × (lanes ≤ 15) }
    ensures plan { IfOk result (λ plan. IsDfssspPlan fabric.now lanes plan) }
    ensures refusal { IfErr result (λ fault. IsDfssspFault fabric.now lanes fault) }
    ensures certified { IfOk result (λ plan. IsCertified fabric.now plan) }
    ensures fits { IfOk result (λ plan. PlanFits fabric.now plan) }
    ensures tidy { IfOk result (λ plan. IsTidy fabric.now plan) }
{
    let tables = lay(alloc, fabric)?;
    let broken = broken_lanes(alloc, fabric, &tables, lanes)?;
    let plan = numbered_plan(alloc, fabric, tables, broken)?;
    Ok(plan)
}

/// The lanes at which the steps end, or the ring of the last lane.
fn broken_lanes(
    alloc: Global,
    fabric: &Fabric,
    tables: &Tables,
    count: u8,
) -> Result<Lanes, BreakFault>
    requires tables { AreLeastWeightTables fabric.now tables.now }
    requires count { (0 < count) × (count ≤ 15) }
    ensures fabric { IfOk result (λ lanes. IsFabric fabric.now) }
    ensures lanes { IfOk result (AreBrokenLanes fabric.now tables.now count) }
    ensures refusal { IfErr result (EndsAtRing fabric.now tables.now count) }
{
    let mut lanes = start_lanes(alloc, fabric, count)?;
    for lane in 0..count {
        break_lane(alloc, fabric, tables, lane, &mut lanes)?;
    }
    Ok(lanes)
}

/// Moves paths of a lane to the next one until it has no ring; in the last lane a ring is the refusal.
fn break_lane(
    alloc: Global,
    fabric: &Fabric,
    tables: &Tables,
    lane: u8,
    lanes: &mut Lanes,
) -> Result<(), BreakFault>
    requires fabric { IsFabric fabric.now }
    requires tables { AreLeastWeightTables fabric.now tables.now }
    requires lane { lane < lanes.old.count }
    requires before { IsBrokenBelow fabric.now tables.now lanes.old.count lane lanes.old }
    ensures count { OnOk result (lanes.new.count ≡ lanes.old.count) }
    ensures after { OnOk result (IsBrokenBelow fabric.now tables.now lanes.old.count (lane + 1) lanes.new) }
    ensures refusal { IfErr result (EndsAtRing fabric.now tables.now lanes.old.count) }
{
    let mut edges = lane_edges(alloc, fabric, tables, lanes, lane)?;
    for channel in 0..fabric.channels() {
        break_rings(alloc, fabric, tables, lane, channel, lanes, &mut edges)?;
    }
    Ok(())
}

/// Does so until no ring leads through a channel, where none leads through a smaller one.
fn break_rings(
    alloc: Global,
    fabric: &Fabric,
    tables: &Tables,
    lane: u8,
    channel: u32,
    lanes: &mut Lanes,
    edges: &mut CountedEdges,
) -> Result<(), BreakFault>
    requires fabric { IsFabric fabric.now }
    requires tables { AreLeastWeightTables fabric.now tables.now }
    requires lane { lane < lanes.old.count }
    requires channel { channel < length fabric.now.channels }
    requires before { IsBrokenBelow fabric.now tables.now lanes.old.count lane lanes.old }
    requires counts { CountsLane fabric.now tables.now lanes.old lane edges.old }
    requires below { HasNoRingBelow fabric.now tables.now lanes.old lane channel }
    ensures count { OnOk result (lanes.new.count ≡ lanes.old.count) }
    ensures after { OnOk result (IsBrokenBelow fabric.now tables.now lanes.old.count lane lanes.new) }
    ensures counts { OnOk result (CountsLane fabric.now tables.now lanes.new lane edges.new) }
    ensures below { OnOk result (HasNoRingBelow fabric.now tables.now lanes.new lane (channel + 1)) }
    ensures refusal { IfErr result (EndsAtRing fabric.now tables.now lanes.old.count) }
{
    let mut near = nearness(alloc, edges, channel)?;
    while let Some(ring) = ring_through(alloc, edges, channel, &mut near)? {
        if lane + 1 == lanes.count() {
            return Err(BreakFault::NeedsLane { ring });
        }
        let edge = weakest_edge(edges, ring.nodes());
        move_paths(alloc, fabric, tables, lane, edge, lanes, edges)?;
    }
    Ok(())
}
