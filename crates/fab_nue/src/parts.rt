//! The part of a tree of old routes on which packets of a level go.
//!
//! Time: the hops of the routes of the sources that have the level, and a step for each switch. No memory.
ghost use Rattle.std.specs.Prelude.{◌≡◌, ℕ, ◌<◌, ◌⊎◌, length, Contains, Some};
ghost use Rattle.fab_model.specs.WellFormed.{IsFabric};
ghost use Rattle.fab_tables.specs.Route.{visited};
ghost use Rattle.fab_tables.specs.Trees.{next};
ghost use Rattle.fab_tables.specs.TreeWalks.{IsTree, walk_of};
ghost use Rattle.fab_nue.specs.Kept.{HasSwitchesAndLids};
ghost use Rattle.fab_nue.specs.OldRoutes.{IsOnWayOf, IsPartOf};

use crate::old_levels::old_level;
use crate::settled::unsettle_all;
use fab_model::{Fabric, Lid, SwitchId};
use fab_tables::{Plan, Tree};

/// Writes the part of the tree that lies on the ways of the sources with this old level for the LID. What it held before
/// has no effect.
pub(crate) fn write_part(
    fabric: &Fabric,
    old: &Plan,
    lid: Lid,
    level: u8,
    whole: &Tree,
    part: &mut Tree,
)
    requires fabric { IsFabric fabric.now }
    requires old { HasSwitchesAndLids fabric.now old.now }
    requires whole { IsTree fabric.now whole.now }
    requires part { length part.old ≡ length fabric.now.switches }
    ensures { IsPartOf (IsOnWayOf fabric.now old.now lid.0 whole.now level (length fabric.now.switches)) whole.now part.new }
{
    unsettle_all(fabric, part);
    for s in 0..fabric.switches() {
        let from = SwitchId(s);
        if fabric.has_terminal(from) && old_level(fabric, old, from, lid) == Some(level) {
            copy_way(fabric, whole, from, part);
        }
    }
}

/// Gives the switches on the way from one along a tree their channels.
fn copy_way(fabric: &Fabric, whole: &Tree, from: SwitchId, part: &mut Tree)
    requires fabric { IsFabric fabric.now }
    requires whole { IsTree fabric.now whole.now }
    requires from { from.0 < length fabric.now.switches }
    requires part { length part.old ≡ length fabric.now.switches }
    ensures each_switch { length part.new ≡ length part.old }
    ensures taken { (x c : ℕ) → Contains (visited fabric.now from.0 (walk_of fabric.now whole.now from.0)) x → next whole.now x ≡ Some c → next part.new x ≡ Some c }
    ensures kept { (x c : ℕ) → next part.old x ≡ Some c → next whole.now x ≡ Some c → next part.new x ≡ Some c }
    ensures only { (x c : ℕ) → next part.new x ≡ Some c → (next part.old x ≡ Some c) ⊎ (Contains (visited fabric.now from.0 (walk_of fabric.now whole.now from.0)) x × (next whole.now x ≡ Some c)) }
{
    let mut at = from;
    while let Some(channel) = whole.next(at) {
        part.set(fabric, at, Some(channel));
        at = fabric.tip(channel);
    }
}
