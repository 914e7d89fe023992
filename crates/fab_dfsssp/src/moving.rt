//! The paths of a lane over an edge go to the next lane, and leave the counts of this one. It takes what it takes to find
//! the paths over the edge, and a look-up for each hop of those that move.
ghost use Rattle.std.specs.Prelude.{◌≡◌, ◌<◌, length, OnOk};
ghost use Rattle.fab_model.specs.WellFormed.{IsFabric};
ghost use Rattle.fab_tables.specs.Fit.{LanesFit};
ghost use Rattle.fab_tables.specs.LaneTables.{HasLanePerLevel};
ghost use Rattle.fab_sssp.specs.LeastWeightTables.{AreLeastWeightTables};
ghost use Rattle.fab_dfsssp.specs.LaneCounts.{CountsLane};
ghost use Rattle.fab_dfsssp.specs.Moving.{MovesLevels};

use crate::counted_edges::CountedEdges;
use crate::lane_edges::uncount_path;
use crate::paths_over::paths_over;
use fab_model::Fabric;
use fab_tables::{Lanes, Tables};
use std::alloc::{AllocError, Global};

/// Gives the level of the next lane to each path of this lane whose route contains the edge, and lowers the counts of the
/// path's edges. The error is want of memory.
pub(crate) fn move_paths(
    alloc: Global,
    fabric: &Fabric,
    tables: &Tables,
    lane: u8,
    edge: (u32, u32),
    lanes: &mut Lanes,
    counts: &mut CountedEdges,
) -> Result<(), AllocError>
    requires fabric { IsFabric fabric.now }
    requires tables { AreLeastWeightTables fabric.now tables.now }
    requires lane { lane < 15 }
    requires edge { edge.0 < length fabric.now.channels }
    requires fits { LanesFit fabric.now lanes.old }
    requires maps { HasLanePerLevel lanes.old }
    requires counts { CountsLane fabric.now tables.now lanes.old lane counts.old }
    ensures moves { OnOk result (MovesLevels fabric.now tables.now lane edge lanes.old lanes.new) }
    ensures count { OnOk result (lanes.new.count ≡ lanes.old.count) }
    ensures fits { OnOk result (LanesFit fabric.now lanes.new) }
    ensures maps { OnOk result (HasLanePerLevel lanes.new) }
    ensures counts { OnOk result (CountsLane fabric.now tables.now lanes.new lane counts.new) }
{
    let paths = paths_over(alloc, fabric, tables, edge)?;
    for path in &paths {
        if lanes.level(path.from, path.lid) == Some(lane) {
            lanes.set_level(path.from, path.lid, Some(lane + 1));
            uncount_path(fabric, tables, *path, counts)?;
        }
    }
    Ok(())
}
