//! Lanes as routing engines begin with them: a packet's level, the service level (SL) of InfiniBand, names the
//! lane that it keeps on its whole route.
//!
//! Each switch puts each level below the lane count on the lane of the same number, and each other level on
//! lane 15, by its general SL-to-VL map; no pair of ports has a map of its own.
ghost use Rattle.std.specs.Prelude.{◌<◌, ◌≤◌, IfOk};
ghost use Rattle.fab_certify.specs.EnginePlans.{AreEngineLanes};

use fab_model::{Fabric, SwitchId};
use fab_tables::Lanes;
use std::alloc::{AllocError, Global};

/// Lanes of this count with the engines' maps, without a level and with every number 0. It takes time and memory
/// for each switch and LID, and for each channel.
pub fn engine_lanes(alloc: Global, fabric: &Fabric, count: u8) -> Result<Lanes, AllocError>
    requires { (0 < count) × (count ≤ 15) }
    ensures { IfOk result (AreEngineLanes fabric.now count) }
{
    let mut lanes = Lanes::new(alloc, fabric, count)?;
    for switch in 0..fabric.switches() {
        for level in 0..count {
            lanes.set_lane(SwitchId(switch), level, level);
        }
    }
    Ok(lanes)
}
