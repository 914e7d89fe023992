//! Whether the way from a switch along a tree passes another. Time: the channels of the way; no memory.
ghost use Rattle.std.specs.Prelude.{◌≡◌, ◌<◌, length, MatchBool};
ghost use Rattle.fab_model.specs.WellFormed.{IsFabric};
ghost use Rattle.fab_tables.specs.TreeWalks.{IsTree};
ghost use Rattle.fab_nue.specs.Search.{Passes};

use fab_model::{Fabric, SwitchId};
use fab_tables::Tree;

/// Whether the way from a switch along the tree passes another, or begins there.
pub(crate) fn passes(fabric: &Fabric, tree: &Tree, from: SwitchId, other: SwitchId) -> bool
    requires fabric { IsFabric fabric.now }
    requires tree { IsTree fabric.now tree.now }
    requires from { from.0 < length fabric.now.switches }
    ensures { MatchBool result (Passes fabric.now tree.now from.0 other.0) (¬ Passes fabric.now tree.now from.0 other.0) }
{
    let mut at = from;
    while at != other {
        match tree.next(at) {
            Some(channel) => at = fabric.tip(channel),
            None => return false,
        }
    }
    true
}
