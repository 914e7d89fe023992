//! The lanes with which the breaking of rings begins: all paths are on lane 0. A path is a source and a LID connected
//! to it. It takes a step for each switch and LID, and the memory of the lanes.
ghost use Rattle.std.specs.Prelude.{◌<◌, ◌≤◌, IfOk};
ghost use Rattle.fab_model.specs.WellFormed.{IsFabric};
ghost use Rattle.fab_dfsssp.specs.Assigned.{AreFirstLanes};

use fab_certify::engine_lanes;
use fab_model::{Fabric, SwitchId};
use fab_tables::{Components, Lanes};
use std::alloc::{AllocError, Global};

/// So many lanes, with level 0 for each source and LID connected to it. The error is want of memory.
pub(crate) fn start_lanes(alloc: Global, fabric: &Fabric, count: u8) -> Result<Lanes, AllocError>
    requires { (0 < count) × (count ≤ 15) }
    ensures fabric { IfOk result (λ lanes. IsFabric fabric.now) }
    ensures lanes { IfOk result (AreFirstLanes fabric.now count) }
{
    let components = Components::of(alloc, fabric)?;
    let mut lanes = engine_lanes(alloc, fabric, count)?;
    for lid in fabric.lids_in_use() {
        let place = fabric.place_of(*lid).unwrap();
        for s in 0..fabric.switches() {
            let switch = SwitchId(s);
            if fabric.has_terminal(switch) && components.are_connected(switch, place.switch) {
                lanes.set_level(switch, *lid, Some(0));
            }
        }
    }
    Ok(lanes)
}
