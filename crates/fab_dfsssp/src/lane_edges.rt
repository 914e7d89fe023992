//! The edges of a lane: the pairs of channels that follow each other on its paths, each with the number of the lane's
//! paths that contain it. Where they close no walk, packets on the lane never wait for each other for ever (Dally and
//! Seitz).
//!
//! They are counted once, when the lane's turn comes, and lowered as its paths leave: a lane that is being worked on gets
//! no path. Time: a look at each switch and LID, and a look-up for each hop of the lane's paths; memory: that of the counts.
ghost use Rattle.std.specs.Prelude.{◌≡◌, ℕ, ◌+◌, ◌^◌, ◌<◌, ◌≤◌, length, IfOk, OnOk};
ghost use Rattle.fab_model.specs.WellFormed.{IsFabric};
ghost use Rattle.fab_tables.specs.Fit.{LanesFit};
ghost use Rattle.fab_tables.specs.Reaching.{IsToward};
ghost use Rattle.fab_tables.specs.Route.{route};
ghost use Rattle.fab_sssp.specs.LeastWeightTables.{AreLeastWeightTables};
ghost use Rattle.fab_dfsssp.specs.CountedEdges.{times_of, IsWhole};
ghost use Rattle.fab_dfsssp.specs.LaneCounts.{times_along, CountsLane};
ghost use Rattle.fab_dfsssp.specs.LevelPaths.{level_paths_to};

use crate::counted_edges::CountedEdges;
use crate::paths_over::Path;
use fab_model::{ChannelId, Fabric, Lid, SwitchId};
use fab_tables::{Lanes, Tables, follow};
use std::alloc::{AllocError, Global};

/// The edges of a lane, where the levels of the paths are their lanes. The error is want of memory.
pub(crate) fn lane_edges(
    alloc: Global,
    fabric: &Fabric,
    tables: &Tables,
    lanes: &Lanes,
    lane: u8,
) -> Result<CountedEdges, AllocError>
    requires fabric { IsFabric fabric.now }
    requires tables { AreLeastWeightTables fabric.now tables.now }
    requires lanes { LanesFit fabric.now lanes.now }
    ensures { IfOk result (λ edges. CountsLane fabric.now tables.now lanes.now lane edges) }
{
    let mut edges = CountedEdges::new(alloc, fabric.channels())?;
    for lid in fabric.lids_in_use() {
        count_paths(fabric, tables, lanes, lane, *lid, &mut edges)?;
    }
    Ok(edges)
}

/// Counts the edges of the lane's paths to a LID.
fn count_paths(
    fabric: &Fabric,
    tables: &Tables,
    lanes: &Lanes,
    lane: u8,
    lid: Lid,
    edges: &mut CountedEdges,
) -> Result<(), AllocError>
    requires toward { IsToward fabric.now tables.now lid.0 }
    requires tables { AreLeastWeightTables fabric.now tables.now }
    requires lanes { LanesFit fabric.now lanes.now }
    requires whole { IsWhole edges.old }
    requires nodes { length edges.old.heads ≡ length fabric.now.channels }
    requires room { (edge : ℕ × ℕ) → times_of edges.old edge + length fabric.now.switches < 2 ^ 32 }
    ensures whole { OnOk result (IsWhole edges.new) }
    ensures nodes { OnOk result (length edges.new.heads ≡ length edges.old.heads) }
    ensures counts { OnOk result ((edge : ℕ × ℕ) → times_of edges.new edge ≡ times_of edges.old edge + level_paths_to fabric.now tables.now lanes.now lane edge lid.0) }
{
    for s in 0..fabric.switches() {
        let from = SwitchId(s);
        if lanes.level(from, lid) == Some(lane) {
            count_path(fabric, tables, Path { from, lid }, edges)?;
        }
    }
    Ok(())
}

/// Counts each edge of a path once more.
fn count_path(
    fabric: &Fabric,
    tables: &Tables,
    path: Path,
    edges: &mut CountedEdges,
) -> Result<(), AllocError>
    requires toward { IsToward fabric.now tables.now path.lid.0 }
    requires switch { path.from.0 < length fabric.now.switches }
    requires whole { IsWhole edges.old }
    requires nodes { length edges.old.heads ≡ length fabric.now.channels }
    requires room { (edge : ℕ × ℕ) → times_of edges.old edge + times_along edge (route fabric.now tables.now path.from.0 path.lid.0).channels < 2 ^ 32 }
    ensures whole { OnOk result (IsWhole edges.new) }
    ensures nodes { OnOk result (length edges.new.heads ≡ length edges.old.heads) }
    ensures counts { OnOk result ((edge : ℕ × ℕ) → times_of edges.new edge ≡ times_of edges.old edge + times_along edge (route fabric.now tables.now path.from.0 path.lid.0).channels) }
{
    let mut before: Option<ChannelId> = None;
    for channel in follow(fabric, tables, path.from, path.lid) {
        if let Some(first) = before {
            edges.raise((first.0, channel.0))?;
        }
        before = Some(channel);
    }
    Ok(())
}

/// Counts each edge of a path once less, as it leaves the lane.
pub(crate) fn uncount_path(
    fabric: &Fabric,
    tables: &Tables,
    path: Path,
    edges: &mut CountedEdges,
) -> Result<(), AllocError>
    requires toward { IsToward fabric.now tables.now path.lid.0 }
    requires switch { path.from.0 < length fabric.now.switches }
    requires whole { IsWhole edges.old }
    requires counted { (edge : ℕ × ℕ) → times_along edge (route fabric.now tables.now path.from.0 path.lid.0).channels ≤ times_of edges.old edge }
    ensures whole { OnOk result (IsWhole edges.new) }
    ensures nodes { OnOk result (length edges.new.heads ≡ length edges.old.heads) }
    ensures counts { OnOk result ((edge : ℕ × ℕ) → times_of edges.new edge + times_along edge (route fabric.now tables.now path.from.0 path.lid.0).channels ≡ times_of edges.old edge) }
{
    let mut before: Option<ChannelId> = None;
    for channel in follow(fabric, tables, path.from, path.lid) {
        if let Some(first) = before {
            edges.lower((first.0, channel.0))?;
        }
        before = Some(channel);
    }
    Ok(())
}
