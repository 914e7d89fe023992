//! The choices that come of a switch that was just settled.
//!
//! The channels that lead to a switch are the reverses of those that leave it, so this takes O(k log n) time for k
//! channels, with n choices in the heap. No memory.
ghost use Rattle.std.specs.Prelude.{◌≡◌, ◌+◌, ◌*◌, ◌<◌, ◌≤◌, ◌^◌, length};
ghost use Rattle.fab_model.specs.WellFormed.{IsFabric};
ghost use Rattle.fab_sssp.specs.WeightTables.{weight_of, WeightsFit, AreWeights};
ghost use Rattle.fab_sssp.specs.Nearing.{weight_limit};
ghost use Rattle.fab_nue.specs.Offers.{HoldsOnce, Offers, LeadsInto, LeadElsewhere};

use crate::choices::{Choice, Choices};
use crate::settled::is_settled;
use fab_model::{ChannelId, Fabric, SwitchId};
use fab_sssp::Weights;
use fab_tables::Tree;

/// Puts in a choice for each channel that leads from an unsettled switch to one that was just settled, whose way has
/// this weight.
pub(crate) fn offer(
    fabric: &Fabric,
    weights: &Weights,
    tree: &Tree,
    to: SwitchId,
    settled: SwitchId,
    way: u64,
    choices: &mut Choices,
)
    requires fabric { IsFabric fabric.now }
    requires made_for { WeightsFit fabric.now weights.now }
    requires tree { length tree.now ≡ length fabric.now.switches }
    requires settled { settled.0 < length fabric.now.switches }
    requires small { AreWeights weights.now → way + weight_limit < 2 ^ 64 }
    requires room { choices.old.room ≡ length fabric.now.channels }
    requires holds { HoldsOnce fabric.now choices.old.entries }
    requires elsewhere { LeadElsewhere fabric.now settled.0 choices.old.entries }
    ensures room { choices.new.room ≡ choices.old.room }
    ensures offered { Offers fabric.now to.0 tree.now (λ c. weight_of weights.now c + way) (LeadsInto fabric.now settled.0)
        choices.old.entries choices.new.entries }
{
    let (first, past) = fabric.leaves(settled);
    for leaving in first..past {
        let from = fabric.tip(ChannelId(leaving));
        if !is_settled(tree, to, from) {
            let channel = fabric.reverse(ChannelId(leaving));
            let weight = weights.of(channel) + way;
            choices.push(Choice { weight, channel });
        }
    }
}
