//! Swapping the least allowed pair of channels, where no channel can be added.
//!
//! The pairs are tried by ascending numbers: for each channel from an unsettled switch to a settled one, those that
//! leave the latter for a settled switch whose way doesn't pass it. The arena is cut to its length at the start first,
//! and gets the dependencies of the tree that stands in the end. For S switches and C channels, of which k leave a
//! switch, it takes O(C k) tries at most, each of O(S) additions to the arena, and then fills the heap anew. No memory.
//!
//! The swap is this project's own; the search without it is that of Domke, Hoefler and Matsuoka, "Routing on the
//! Dependency Graph".
ghost use Rattle.std.specs.Prelude.{◌≡◌, ◌≢◌, ℕ, ◌+◌, ◌<◌, ◌≤◌, [], true, false, length, MatchBool};
ghost use Rattle.fab_model.specs.WellFormed.{IsFabric};
ghost use Rattle.fab_tables.specs.Route.{tip};
ghost use Rattle.fab_tables.specs.TreeWalks.{IsTree};
ghost use Rattle.fab_sssp.specs.WeightTables.{weight_of, WeightsFit};
ghost use Rattle.fab_depgraph.specs.Listed.{Dependencies, IsListed};
ghost use Rattle.fab_nue.specs.Search.{tail, IsAllowed, IsNotAfterPair};
ghost use Rattle.fab_nue.specs.Added.{AddsTree};
ghost use Rattle.fab_nue.specs.Laws.{IsSearchTree, settled_count};
ghost use Rattle.fab_nue.specs.Turns.{Crosses, LeadsPast, IsSwapped};
ghost use Rattle.fab_nue.specs.UnderWay.{IsUnderWay};

use crate::adding::add_tree;
use crate::choices::Choices;
use crate::crossing::crosses;
use crate::passing::passes;
use crate::rebuilding::weigh_anew;
use crate::settled::is_settled;
use crate::trying::try_swap;
use fab_depgraph::{DepGraph, Mark, Steps};
use fab_model::{ChannelId, Fabric, SwitchId};
use fab_sssp::Weights;
use fab_tables::Tree;
use std::sync::ledger::Ledger;

/// Whether a channel leads to a settled switch whose way doesn't pass another.
fn leads_past(
    fabric: &Fabric,
    tree: &Tree,
    to: SwitchId,
    channel: ChannelId,
    other: SwitchId,
) -> bool
    requires fabric { IsFabric fabric.now }
    requires tree { IsTree fabric.now tree.now }
    requires channel { channel.0 < length fabric.now.channels }
    ensures { MatchBool result (LeadsPast fabric.now to.0 tree.now channel.0 other.0)
        (¬ LeadsPast fabric.now to.0 tree.now channel.0 other.0) }
{
    let next = fabric.tip(channel);
    is_settled(tree, to, next) && !passes(fabric, tree, next, other)
}

/// Swaps two channels, if the pair is allowed. False exactly where it isn't; then nothing changes.
fn swap_pair<L: Ledger>(
    fabric: &Fabric,
    to: SwitchId,
    added: ChannelId,
    turned: ChannelId,
    used: &mut DepGraph,
    tree: &mut Tree,
    steps: &mut Steps<L>,
) -> bool
    requires fabric { IsFabric fabric.now }
    requires tree { IsSearchTree fabric.now used.old.listed to.0 tree.old }
    requires added { added.0 < length fabric.now.channels }
    requires turned { turned.0 < length fabric.now.channels }
    requires crosses { Crosses fabric.now to.0 tree.old added.0 }
    requires elsewhere { tip fabric.now added.0 ≢ to.0 }
    requires there { tail fabric.now turned.0 ≡ tip fabric.now added.0 }
    requires channels { used.old.channels ≡ length fabric.now.channels }
    requires spare { length fabric.now.switches ≤ used.old.spare }
    ensures swapped { result ≡ true → IsSwapped fabric.now to.0 tree.old tree.new used.old used.new added.0 turned.0 }
    ensures refused { result ≡ false → ¬ IsAllowed fabric.now (IsListed used.old.listed) to.0 tree.old added.0 turned.0 }
    ensures stays { result ≡ false → tree.new ≡ tree.old }
    ensures listed { result ≡ false → used.new.listed ≡ used.old.listed }
    ensures spare { result ≡ false → used.new.spare ≡ used.old.spare }
    ensures channels { used.new.channels ≡ used.old.channels }
    ensures counted { steps.old ≤ steps.new }
{
    let at = fabric.tip(added);
    if !leads_past(fabric, tree, to, turned, at) {
        return false;
    }
    try_swap(fabric, added, turned, used, tree, steps)
}

/// Swaps the first allowed pair that adds this channel. False exactly where there is none; then nothing changes.
fn swap_adding<L: Ledger>(
    fabric: &Fabric,
    to: SwitchId,
    added: ChannelId,
    used: &mut DepGraph,
    tree: &mut Tree,
    steps: &mut Steps<L>,
) -> bool
    requires fabric { IsFabric fabric.now }
    requires tree { IsSearchTree fabric.now used.old.listed to.0 tree.old }
    requires added { added.0 < length fabric.now.channels }
    requires channels { used.old.channels ≡ length fabric.now.channels }
    requires spare { length fabric.now.switches ≤ used.old.spare }
    ensures swapped { result ≡ true → (turned : ℕ)
        × IsSwapped fabric.now to.0 tree.old tree.new used.old used.new added.0 turned
        × ((d : ℕ) → d < turned → ¬ IsAllowed fabric.now (IsListed used.old.listed) to.0 tree.old added.0 d) }
    ensures none { result ≡ false → (d : ℕ) → ¬ IsAllowed fabric.now (IsListed used.old.listed) to.0 tree.old added.0 d }
    ensures stays { result ≡ false → tree.new ≡ tree.old }
    ensures listed { result ≡ false → used.new.listed ≡ used.old.listed }
    ensures spare { result ≡ false → used.new.spare ≡ used.old.spare }
    ensures channels { used.new.channels ≡ used.old.channels }
    ensures counted { steps.old ≤ steps.new }
{
    let at = fabric.tip(added);
    if at == to || !crosses(fabric, tree, to, added) {
        return false;
    }
    let (first, past) = fabric.leaves(at);
    for turned in first..past {
        if swap_pair(fabric, to, added, ChannelId(turned), used, tree, steps) {
            return true;
        }
    }
    false
}

/// Swaps the least allowed pair. False exactly where none is allowed; then nothing changes.
fn swap_first<L: Ledger>(
    fabric: &Fabric,
    to: SwitchId,
    used: &mut DepGraph,
    tree: &mut Tree,
    steps: &mut Steps<L>,
) -> bool
    requires fabric { IsFabric fabric.now }
    requires tree { IsSearchTree fabric.now used.old.listed to.0 tree.old }
    requires channels { used.old.channels ≡ length fabric.now.channels }
    requires spare { length fabric.now.switches ≤ used.old.spare }
    ensures swapped { result ≡ true → (added turned : ℕ)
        × IsSwapped fabric.now to.0 tree.old tree.new used.old used.new added turned
        × ((c d : ℕ) → IsAllowed fabric.now (IsListed used.old.listed) to.0 tree.old c d → IsNotAfterPair added turned c d) }
    ensures none { result ≡ false → (c d : ℕ) → ¬ IsAllowed fabric.now (IsListed used.old.listed) to.0 tree.old c d }
    ensures stays { result ≡ false → tree.new ≡ tree.old }
    ensures listed { result ≡ false → used.new.listed ≡ used.old.listed }
    ensures spare { result ≡ false → used.new.spare ≡ used.old.spare }
    ensures channels { used.new.channels ≡ used.old.channels }
    ensures counted { steps.old ≤ steps.new }
{
    for added in 0..fabric.channels() {
        if swap_adding(fabric, to, ChannelId(added), used, tree, steps) {
            return true;
        }
    }
    false
}

/// Swaps the least allowed pair, and fills the empty heap anew. False exactly where no pair is allowed; then the tree
/// stays. The mark is the length of the arena when the search began.
pub(crate) fn swap_least<L: Ledger>(
    fabric: &Fabric,
    weights: &Weights,
    to: SwitchId,
    start: Mark,
    used: &mut DepGraph,
    tree: &mut Tree,
    choices: &mut Choices,
    steps: &mut Steps<L>,
) -> bool
    requires fabric { IsFabric fabric.now }
    requires made_for { WeightsFit fabric.now weights.now }
    requires channels { used.old.channels ≡ length fabric.now.channels }
    requires room { choices.old.room ≡ length fabric.now.channels }
    requires empty { choices.old.entries ≡ [] }
    requires under_way { (before : Dependencies) × (start.0 ≡ length before.listed)
        × IsUnderWay fabric.now (λ c. weight_of weights.now c) to.0 before used.old tree.old choices.old.entries }
    ensures swapped { result ≡ true → (before : Dependencies) → start.0 ≡ length before.listed →
        IsUnderWay fabric.now (λ c. weight_of weights.now c) to.0 before used.old tree.old choices.old.entries →
        IsUnderWay fabric.now (λ c. weight_of weights.now c) to.0 before used.new tree.new choices.new.entries
        × (settled_count tree.new ≡ settled_count tree.old + 1) }
    ensures none { result ≡ false → (before : Dependencies) → start.0 ≡ length before.listed →
        IsUnderWay fabric.now (λ c. weight_of weights.now c) to.0 before used.old tree.old choices.old.entries →
        ((c a : ℕ) → ¬ IsAllowed fabric.now (IsListed before.listed) to.0 tree.new c a)
        × (tree.new ≡ tree.old) × AddsTree fabric.now tree.new before used.new × (choices.new.entries ≡ []) }
    ensures channels { used.new.channels ≡ used.old.channels }
    ensures room { choices.new.room ≡ choices.old.room }
    ensures counted { steps.old ≤ steps.new }
{
    used.undo_to(start, steps);
    if swap_first(fabric, to, used, tree, steps) {
        weigh_anew(fabric, weights, tree, to, choices);
        return true;
    }
    // It closes no walk, as before.
    add_tree(fabric, tree, used, steps);
    false
}
