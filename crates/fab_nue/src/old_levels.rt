//! Whether the old levels for a LID can stay: each is below the lane count, and on the source's whole route its packets
//! are on the lane of the same number.
//!
//! Time: the hops of all routes to the LID. No memory. Source: the service levels (SL) of InfiniBand.
ghost use Rattle.std.specs.Prelude.{◌≡◌, ◌<◌, ◌≤◌, length, MatchBool, Contains};
ghost use Rattle.fab_model.specs.Topology.{lids_of};
ghost use Rattle.fab_model.specs.WellFormed.{IsFabric};
ghost use Rattle.fab_tables.specs.TreeWalks.{IsTree};
ghost use Rattle.fab_nue.specs.Kept.{old_level as level_in, old_lane as lane_in, HasSwitchesAndLids};
ghost use Rattle.fab_nue.specs.OldRoutes.{IsRouteTree, KeepsLaneFrom, KeepsLevelAlong, KeepLevels};

use fab_model::{Fabric, Lid, SwitchId};
use fab_tables::{Components, Plan, Tree};

/// The old level of a switch for a LID. A plan without lanes has level 0 everywhere.
pub(crate) fn old_level(fabric: &Fabric, old: &Plan, s: SwitchId, lid: Lid) -> Option<u8>
    requires old { HasSwitchesAndLids fabric.now old.now }
    requires s { s.0 < length fabric.now.switches }
    ensures { result ≡ level_in old.now.lanes s.0 lid.0 }
{
    match &old.lanes {
        Some(lanes) => lanes.level(s, lid),
        None => Some(0),
    }
}

/// The old lane of a level at a switch. A plan without lanes has lane 0 everywhere.
fn old_lane(fabric: &Fabric, old: &Plan, s: SwitchId, level: u8) -> u8
    requires old { HasSwitchesAndLids fabric.now old.now }
    requires s { s.0 < length fabric.now.switches }
    requires level { level < 16 }
    ensures { result ≡ lane_in old.now.lanes s.0 level }
{
    match &old.lanes {
        Some(lanes) => lanes.lane(s, level),
        None => 0,
    }
}

/// Whether packets of a level go on the lane of the same number, all the way from a switch along the tree.
fn keeps_lane(fabric: &Fabric, old: &Plan, tree: &Tree, from: SwitchId, level: u8) -> bool
    requires fabric { IsFabric fabric.now }
    requires old { HasSwitchesAndLids fabric.now old.now }
    requires tree { IsTree fabric.now tree.now }
    requires from { from.0 < length fabric.now.switches }
    requires level { level < 16 }
    ensures { MatchBool result (KeepsLaneFrom fabric.now old.now tree.now level from.0) (¬ KeepsLaneFrom fabric.now old.now tree.now level from.0) }
{
    let mut at = from;
    while old_lane(fabric, old, at, level) == level {
        match tree.next(at) {
            Some(channel) => at = fabric.tip(channel),
            None => return true,
        }
    }
    false
}

/// Whether a source's old level for a LID can stay on so many lanes, where its route goes along the tree.
fn keeps_level(
    fabric: &Fabric,
    old: &Plan,
    tree: &Tree,
    from: SwitchId,
    lid: Lid,
    lanes: u8,
) -> bool
    requires fabric { IsFabric fabric.now }
    requires old { HasSwitchesAndLids fabric.now old.now }
    requires tree { IsTree fabric.now tree.now }
    requires from { from.0 < length fabric.now.switches }
    requires lanes { lanes ≤ 15 }
    ensures { MatchBool result (KeepsLevelAlong fabric.now lanes old.now tree.now from.0 lid.0) (¬ KeepsLevelAlong fabric.now lanes old.now tree.now from.0 lid.0) }
{
    match old_level(fabric, old, from, lid) {
        Some(level) => level < lanes && keeps_lane(fabric, old, tree, from, level),
        None => false,
    }
}

/// Whether those of all sources connected to a LID can stay, where the tree is that of the old routes.
pub(crate) fn keep_levels(
    fabric: &Fabric,
    components: &Components,
    old: &Plan,
    tree: &Tree,
    lid: Lid,
    lanes: u8,
) -> bool
    requires fabric { IsFabric fabric.now }
    requires components { components.now ≡ fabric.now }
    requires old { HasSwitchesAndLids fabric.now old.now }
    requires in_use { Contains (lids_of fabric.now) lid.0 }
    requires tree { IsRouteTree fabric.now old.now.tables lid.0 tree.now }
    requires lanes { lanes ≤ 15 }
    ensures { MatchBool result (KeepLevels fabric.now lanes old.now lid.0) (¬ KeepLevels fabric.now lanes old.now lid.0) }
{
    let home = fabric.place_of(lid).unwrap().switch;
    for s in 0..fabric.switches() {
        let from = SwitchId(s);
        if fabric.has_terminal(from)
            && components.are_connected(from, home)
            && !keeps_level(fabric, old, tree, from, lid, lanes)
        {
            return false;
        }
    }
    true
}
