//! The lanes with which a plan without lanes is read: one lane, on which every packet goes, as engines write it
//! that need no more. It takes a step for each LID and each start, and memory for each switch and LID.
ghost use Rattle.std.specs.Prelude.{◌≡◌, IfOk, Contains};
ghost use Rattle.fab_model.specs.WellFormed.{IsFabric};
ghost use Rattle.fab_model.specs.Topology.{lids_of};
ghost use Rattle.fab_tables.specs.Dependencies.{IsOneLane};
ghost use Rattle.fab_tables.specs.Starts.{AreStarts};
ghost use Rattle.fab_certify.specs.OneLane.{IsLeveling, KeepsLevels, HasLevelsFor};

use crate::lane_per_level::engine_lanes;
use fab_model::{Fabric, Lid};
use fab_tables::{Components, Lanes, Start};
use std::alloc::{AllocError, Global};

/// One lane: each switch puts level 0 on lane 0, and each source has level 0 for each LID connected to it.
pub(crate) fn one_lane(
    alloc: Global,
    fabric: &Fabric,
    components: &Components,
    starts: &[Start],
) -> Result<Lanes, AllocError>
    requires components { components.now ≡ fabric.now }
    requires starts { AreStarts fabric.now starts.now }
    ensures { IfOk result (IsOneLane fabric.now) }
{
    let mut lanes = engine_lanes(alloc, fabric, 1)?;
    for lid in fabric.lids_in_use() {
        set_levels(fabric, *lid, components, starts, &mut lanes);
    }
    Ok(lanes)
}

/// Gives level 0 for a LID to each source connected to it.
fn set_levels(
    fabric: &Fabric,
    lid: Lid,
    components: &Components,
    starts: &[Start],
    lanes: &mut Lanes,
)
    requires fabric { IsFabric fabric.now }
    requires in_use { Contains (lids_of fabric.now) lid.0 }
    requires components { components.now ≡ fabric.now }
    requires starts { AreStarts fabric.now starts.now }
    requires before { IsLeveling fabric.now lanes.old }
    ensures after { IsLeveling fabric.now lanes.new }
    ensures kept { KeepsLevels lanes.old lanes.new }
    ensures has { HasLevelsFor fabric.now lanes.new lid.0 }
{
    let Some(place) = fabric.place_of(lid) else {
        return;
    };
    for start in starts {
        if components.are_connected(start.switch, place.switch) {
            lanes.set_level(start.switch, lid, Some(0));
        }
    }
}
