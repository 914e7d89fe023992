//! The weight of the way that a channel begins along a tree. Time: the channels of the way; no memory.
ghost use Rattle.std.specs.Prelude.{◌≡◌, ◌<◌, length};
ghost use Rattle.fab_model.specs.WellFormed.{IsFabric};
ghost use Rattle.fab_tables.specs.TreeWalks.{IsTree};
ghost use Rattle.fab_sssp.specs.WeightTables.{weight_of, WeightsFit};
ghost use Rattle.fab_nue.specs.Search.{way_weight};

use fab_model::{ChannelId, Fabric};
use fab_sssp::Weights;
use fab_tables::Tree;

/// The weight of a channel and of the way from its tip along the tree.
pub(crate) fn weight_of_way(
    fabric: &Fabric,
    weights: &Weights,
    tree: &Tree,
    channel: ChannelId,
) -> u64
    requires fabric { IsFabric fabric.now }
    requires made_for { WeightsFit fabric.now weights.now }
    requires tree { IsTree fabric.now tree.now }
    requires channel { channel.0 < length fabric.now.channels }
    ensures { result ≡ way_weight fabric.now (λ c. weight_of weights.now c) tree.now channel.0 }
{
    let mut weight = weights.of(channel);
    let mut at = fabric.tip(channel);
    while let Some(next) = tree.next(at) {
        weight += weights.of(next);
        at = fabric.tip(next);
    }
    weight
}
