//! The lane in which each LID is laid. Constant time, no memory.
//!
//! Source: Domke, Hoefler and Matsuoka, "Routing on the Dependency Graph".
ghost use Rattle.std.specs.Prelude.{◌≡◌, ◌<◌, ◌≤◌, Contains};
ghost use Rattle.fab_model.specs.Topology.{lids_of};
ghost use Rattle.fab_escape.specs.EscapeSet.{home as home_lane};

use fab_model::{Fabric, Lid};

/// The home lane of a LID: the index of its switch modulo the lane count.
pub fn home(fabric: &Fabric, lid: Lid, lanes: u8) -> u8
    requires in_use { Contains (lids_of fabric.now) lid.0 }
    requires lanes { (0 < lanes) × (lanes ≤ 15) }
    ensures home { result ≡ home_lane fabric.now lid.0 lanes }
    ensures below { result < lanes }
{
    let switch = fabric.place_of(lid).unwrap().switch;
    (switch.0 % u32::from(lanes)) as u8
}
