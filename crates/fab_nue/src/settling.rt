//! Settling switches, the one with the least way first, until no channel can be added.
//!
//! As in Dijkstra's search a heap holds the channels to settled switches with the weights of their ways. A channel is
//! looked at once, and its dependency is added to those in use unless a walk would be closed; so a channel that is
//! refused is not tried again. For C channels: C choices, each with O(log C) time and one addition to the arena. No
//! memory.
//!
//! Source: Domke, Hoefler and Matsuoka, "Routing on the Dependency Graph".
ghost use Rattle.std.specs.Prelude.{◌≡◌, ◌<◌, ◌≤◌, [], true, false, length};
ghost use Rattle.fab_model.specs.WellFormed.{IsFabric};
ghost use Rattle.fab_sssp.specs.WeightTables.{weight_of, WeightsFit};
ghost use Rattle.fab_depgraph.specs.Listed.{Dependencies};
ghost use Rattle.fab_nue.specs.Laws.{settled_count};
ghost use Rattle.fab_nue.specs.UnderWay.{IsUnderWay, still_to_do};

use crate::adding::add_behind;
use crate::choices::{Choice, Choices};
use crate::offering::offer;
use crate::settled::is_settled;
use fab_depgraph::{Added, DepGraph, Steps};
use fab_model::{Fabric, SwitchId};
use fab_sssp::Weights;
use fab_tables::Tree;
use std::sync::ledger::Ledger;

/// Takes out the least choice, and settles the switch that its channel leaves, if that is unsettled and no walk would be
/// closed. False exactly where no choice stands in the heap.
fn settle_next<L: Ledger>(
    fabric: &Fabric,
    weights: &Weights,
    to: SwitchId,
    used: &mut DepGraph,
    tree: &mut Tree,
    choices: &mut Choices,
    steps: &mut Steps<L>,
) -> bool
    requires fabric { IsFabric fabric.now }
    requires made_for { WeightsFit fabric.now weights.now }
    requires channels { used.old.channels ≡ length fabric.now.channels }
    requires room { choices.old.room ≡ length fabric.now.channels }
    requires under_way { (start : Dependencies) × IsUnderWay fabric.now (λ c. weight_of weights.now c) to.0 start used.old tree.old choices.old.entries }
    ensures under_way { (start : Dependencies) →
        IsUnderWay fabric.now (λ c. weight_of weights.now c) to.0 start used.old tree.old choices.old.entries →
        IsUnderWay fabric.now (λ c. weight_of weights.now c) to.0 start used.new tree.new choices.new.entries }
    ensures empty { result ≡ false → choices.new.entries ≡ [] }
    ensures fewer { result ≡ true →
        still_to_do fabric.now tree.new choices.new.entries < still_to_do fabric.now tree.old choices.old.entries }
    ensures grows { settled_count tree.old ≤ settled_count tree.new }
    ensures channels { used.new.channels ≡ used.old.channels }
    ensures room { choices.new.room ≡ choices.old.room }
    ensures counted { steps.old ≤ steps.new }
{
    let Some(Choice { weight, channel }) = choices.pop() else {
        return false;
    };
    let from = fabric.channel(channel).tail;
    if is_settled(tree, to, from) {
        return true;
    }
    match add_behind(fabric, tree, used, channel, steps) {
        Added::WouldClose => {}
        Added::Yes => {
            tree.set(fabric, from, Some(channel));
            offer(fabric, weights, tree, to, from, weight, choices);
        }
    }
    true
}

/// Settles switches until no choice is left.
pub(crate) fn settle_all<L: Ledger>(
    fabric: &Fabric,
    weights: &Weights,
    to: SwitchId,
    used: &mut DepGraph,
    tree: &mut Tree,
    choices: &mut Choices,
    steps: &mut Steps<L>,
)
    requires fabric { IsFabric fabric.now }
    requires made_for { WeightsFit fabric.now weights.now }
    requires channels { used.old.channels ≡ length fabric.now.channels }
    requires room { choices.old.room ≡ length fabric.now.channels }
    requires under_way { (start : Dependencies) × IsUnderWay fabric.now (λ c. weight_of weights.now c) to.0 start used.old tree.old choices.old.entries }
    ensures under_way { (start : Dependencies) →
        IsUnderWay fabric.now (λ c. weight_of weights.now c) to.0 start used.old tree.old choices.old.entries →
        IsUnderWay fabric.now (λ c. weight_of weights.now c) to.0 start used.new tree.new choices.new.entries }
    ensures empty { choices.new.entries ≡ [] }
    ensures grows { settled_count tree.old ≤ settled_count tree.new }
    ensures channels { used.new.channels ≡ used.old.channels }
    ensures room { choices.new.room ≡ choices.old.room }
    ensures counted { steps.old ≤ steps.new }
{
    while settle_next(fabric, weights, to, used, tree, choices, steps) {}
}
