//! Filling the heap of a search anew, after a swap changed the ways behind a switch.
//!
//! Each channel from an unsettled switch to a settled one is put in with the weight of its way. For C channels and
//! ways of at most W channels this takes O(C W + C log C) time. No memory.
ghost use Rattle.std.specs.Prelude.{◌≡◌, ◌<◌, [], List, length};
ghost use Rattle.fab_model.specs.WellFormed.{IsFabric};
ghost use Rattle.fab_tables.specs.TreeWalks.{IsTree};
ghost use Rattle.fab_sssp.specs.WeightTables.{weight_of, WeightsFit};
ghost use Rattle.fab_depgraph.specs.declared.dep.Dep.{Dep as Dependency};
ghost use Rattle.fab_depgraph.specs.Listed.{IsListed};
ghost use Rattle.fab_nue.specs.Offers.{HoldsOnce};
ghost use Rattle.fab_nue.specs.UnderWay.{HoldsCandidates};

use crate::choices::{Choice, Choices};
use crate::crossing::crosses;
use crate::weighing::weight_of_way;
use fab_model::{ChannelId, Fabric, SwitchId};
use fab_sssp::Weights;
use fab_tables::Tree;

/// Fills an empty heap with the choices that a tree leaves. Among them is every candidate, whatever is in use.
pub(crate) fn weigh_anew(
    fabric: &Fabric,
    weights: &Weights,
    tree: &Tree,
    to: SwitchId,
    choices: &mut Choices,
)
    requires fabric { IsFabric fabric.now }
    requires made_for { WeightsFit fabric.now weights.now }
    requires tree { IsTree fabric.now tree.now }
    requires room { choices.old.room ≡ length fabric.now.channels }
    requires empty { choices.old.entries ≡ [] }
    ensures room { choices.new.room ≡ choices.old.room }
    ensures candidates { (used : List Dependency) →
        HoldsCandidates fabric.now (λ c. weight_of weights.now c) (IsListed used) to.0 tree.now choices.new.entries }
    ensures once { HoldsOnce fabric.now choices.new.entries }
{
    for number in 0..fabric.channels() {
        let channel = ChannelId(number);
        if crosses(fabric, tree, to, channel) {
            let weight = weight_of_way(fabric, weights, tree, channel);
            choices.push(Choice { weight, channel });
        }
    }
}
