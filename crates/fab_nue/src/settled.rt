//! Which switches a search has settled. To tell it of one takes constant time, to give up all linear time. No memory.
ghost use Rattle.std.specs.Prelude.{◌≡◌, ◌<◌, length, MatchBool};
ghost use Rattle.fab_model.specs.WellFormed.{IsFabric};
ghost use Rattle.fab_nue.specs.Search.{IsSettled, empty_tree};

use fab_model::{Fabric, SwitchId};
use fab_tables::Tree;

/// Whether a switch is the destination, or has a channel.
pub(crate) fn is_settled(tree: &Tree, to: SwitchId, s: SwitchId) -> bool
    requires { s.0 < length tree.now }
    ensures { MatchBool result (IsSettled to.0 tree.now s.0) (¬ IsSettled to.0 tree.now s.0) }
{
    s == to || tree.next(s).is_some()
}

/// Takes every switch's channel away.
pub(crate) fn unsettle_all(fabric: &Fabric, tree: &mut Tree)
    requires { length tree.old ≡ length fabric.now.switches }
    ensures empty { tree.new ≡ empty_tree fabric.now }
    ensures kept { IsFabric fabric.now }
{
    for s in 0..fabric.switches() {
        tree.set(fabric, SwitchId(s), None);
    }
}
