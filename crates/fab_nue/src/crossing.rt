//! Channels that lead from a switch that a search has not settled to one that it has. Constant time; no memory.
ghost use Rattle.std.specs.Prelude.{◌≡◌, ◌<◌, length, MatchBool};
ghost use Rattle.fab_model.specs.WellFormed.{IsFabric};
ghost use Rattle.fab_nue.specs.Turns.{Crosses};

use crate::settled::is_settled;
use fab_model::{ChannelId, Fabric, SwitchId};
use fab_tables::Tree;

/// Whether a channel leads from an unsettled switch to a settled one.
pub(crate) fn crosses(fabric: &Fabric, tree: &Tree, to: SwitchId, channel: ChannelId) -> bool
    requires fabric { IsFabric fabric.now }
    requires tree { length tree.now ≡ length fabric.now.switches }
    requires channel { channel.0 < length fabric.now.channels }
    ensures { MatchBool result (Crosses fabric.now to.0 tree.now channel.0) (¬ Crosses fabric.now to.0 tree.now channel.0) }
{
    let row = fabric.channel(channel);
    !is_settled(tree, to, row.tail) && is_settled(tree, to, row.tip)
}
