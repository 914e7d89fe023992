//! Whether a search is complete. Where a connected switch is unsettled, its walk to the destination somewhere goes from
//! an unsettled switch to a settled one; so one look at each channel tells. Time: the channels; no memory.
ghost use Rattle.std.specs.Prelude.{◌≡◌, ℕ, true, false, length};
ghost use Rattle.fab_model.specs.Connected.{AreConnected};
ghost use Rattle.fab_nue.specs.Search.{IsSettled, IsComplete};

use crate::crossing::crosses;
use fab_model::{ChannelId, Fabric, SwitchId};
use fab_tables::Tree;

/// Whether every switch that is connected to the destination is settled.
pub(crate) fn is_complete(fabric: &Fabric, tree: &Tree, to: SwitchId) -> bool
    requires tree { length tree.now ≡ length fabric.now.switches }
    requires connected { (s : ℕ) → IsSettled to.0 tree.now s → AreConnected fabric.now s to.0 }
    ensures complete { result ≡ true → IsComplete fabric.now to.0 tree.now }
    ensures left { result ≡ false → (s : ℕ) × AreConnected fabric.now s to.0 × (¬ IsSettled to.0 tree.now s) }
{
    for number in 0..fabric.channels() {
        if crosses(fabric, tree, to, ChannelId(number)) {
            return false;
        }
    }
    true
}
