//! The guarded search for the channels towards one destination, and how it ends.
//!
//! From the empty tree switches are settled, the one with the least way first; where none can be, and the tree is not
//! complete, a swap settles one more. So there are as many steps as switches at most. Before the first swap and between
//! two swaps each of the C channels is looked at a few times, and once with O(log C) time and one addition to the arena.
//! A swap costs what its own file says. No memory.
//!
//! Source: Domke, Hoefler and Matsuoka, "Routing on the Dependency Graph". The swap is this project's own.
ghost use Rattle.std.specs.Prelude.{◌≡◌, ◌≤◌, length, Contains};
ghost use Rattle.fab_model.specs.Topology.{lids_of};
ghost use Rattle.fab_model.specs.WellFormed.{IsFabric};
ghost use Rattle.fab_sssp.specs.WeightTables.{weight_of, WeightsFit};
ghost use Rattle.fab_depgraph.specs.Listed.{Dependencies, IsListed};
ghost use Rattle.fab_nue.specs.Searching.{IsEndWith, IsSearched};
ghost use Rattle.fab_nue.specs.UnderWay.{IsUnderWay};

use crate::choices::Choices;
use crate::completing::is_complete;
use crate::offering::offer;
use crate::room::Room;
use crate::settled::unsettle_all;
use crate::settling::settle_all;
use crate::swapping::swap_least;
use fab_depgraph::{DepGraph, Mark, Steps};
use fab_model::{Fabric, Lid, SwitchId};
use fab_sssp::Weights;
use fab_tables::Tree;
use std::sync::ledger::Ledger;

/// How a search ends.
#[derive(Clone, Copy, Debug, PartialEq, Eq)]
pub enum Searched {
    /// Every switch that is connected to the destination has its channel.
    Complete,
    /// Some switch has none, and no step is possible.
    Impasse,
}

/// Searches a tree for a LID beside the dependencies in use: the channel of each switch, by its number. After `Complete`
/// the dependencies of the tree are added to those in use. After `Impasse` these are as before, and the tree is empty.
/// What the tree and the room held before has no effect.
pub fn search<L: Ledger>(
    fabric: &Fabric,
    weights: &Weights,
    used: &mut DepGraph,
    lid: Lid,
    tree: &mut Tree,
    room: &mut Room,
    steps: &mut Steps<L>,
) -> Searched
    requires in_use { Contains (lids_of fabric.now) lid.0 }
    requires weights { WeightsFit fabric.now weights.now }
    requires channels { used.old.channels ≡ length fabric.now.channels }
    requires spare { length fabric.now.switches ≤ used.old.spare }
    requires tree { length tree.old ≡ length fabric.now.switches }
    requires room { room.old ≡ length fabric.now.channels }
    ensures exact { IsSearched fabric.now (λ c. weight_of weights.now c) lid.0 used.old used.new tree.new result }
    ensures each_switch { length tree.new ≡ length fabric.now.switches }
    ensures channels { used.new.channels ≡ used.old.channels }
    ensures room { room.new ≡ room.old }
    ensures counted { steps.old ≤ steps.new }
{
    let to = fabric.place_of(lid).unwrap().switch;
    let start = used.mark();
    let choices = &mut room.choices;
    unsettle_all(fabric, tree);
    choices.clear();
    offer(fabric, weights, tree, to, to, 0, choices);
    match take_steps(fabric, weights, to, start, used, tree, choices, steps) {
        Searched::Complete => Searched::Complete,
        Searched::Impasse => {
            used.undo_to(start, steps);
            unsettle_all(fabric, tree);
            Searched::Impasse
        }
    }
}

/// Settles and swaps until the tree is complete, or neither is possible.
fn take_steps<L: Ledger>(
    fabric: &Fabric,
    weights: &Weights,
    to: SwitchId,
    start: Mark,
    used: &mut DepGraph,
    tree: &mut Tree,
    choices: &mut Choices,
    steps: &mut Steps<L>,
) -> Searched
    requires fabric { IsFabric fabric.now }
    requires made_for { WeightsFit fabric.now weights.now }
    requires channels { used.old.channels ≡ length fabric.now.channels }
    requires room { choices.old.room ≡ length fabric.now.channels }
    requires under_way { (before : Dependencies) × (start.0 ≡ length before.listed)
        × IsUnderWay fabric.now (λ c. weight_of weights.now c) to.0 before used.old tree.old choices.old.entries }
    ensures under_way { (before : Dependencies) → start.0 ≡ length before.listed →
        IsUnderWay fabric.now (λ c. weight_of weights.now c) to.0 before used.old tree.old choices.old.entries →
        IsUnderWay fabric.now (λ c. weight_of weights.now c) to.0 before used.new tree.new choices.new.entries }
    ensures end { (before : Dependencies) → start.0 ≡ length before.listed →
        IsUnderWay fabric.now (λ c. weight_of weights.now c) to.0 before used.old tree.old choices.old.entries →
        IsEndWith fabric.now (IsListed before.listed) to.0 tree.new result }
    ensures channels { used.new.channels ≡ used.old.channels }
    ensures room { choices.new.room ≡ choices.old.room }
    ensures counted { steps.old ≤ steps.new }
{
    loop {
        settle_all(fabric, weights, to, used, tree, choices, steps);
        if is_complete(fabric, tree, to) {
            return Searched::Complete;
        }
        if !swap_least(fabric, weights, to, start, used, tree, choices, steps) {
            return Searched::Impasse;
        }
    }
}
