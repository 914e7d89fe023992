//! Trying the swap of two channels: one becomes that of the switch to which the other leads, and that other is added.
//!
//! The dependencies of the tree must not stand among those in use meanwhile. A try adds those of the new tree, one
//! addition to the arena for each switch, and takes all back where a walk would be closed. No memory.
ghost use Rattle.std.specs.Prelude.{◌≡◌, ◌<◌, ◌≤◌, None, true, false, length};
ghost use Rattle.fab_model.specs.WellFormed.{IsFabric};
ghost use Rattle.fab_tables.specs.Route.{tip};
ghost use Rattle.fab_tables.specs.Trees.{next};
ghost use Rattle.fab_tables.specs.TreeWalks.{IsTree};
ghost use Rattle.fab_depgraph.specs.Listed.{IsListed};
ghost use Rattle.fab_nue.specs.Search.{tail, swapped, ClosesNone};
ghost use Rattle.fab_nue.specs.Added.{AddsTree};

use crate::adding::add_tree;
use fab_depgraph::{Added, DepGraph, Steps};
use fab_model::{ChannelId, Fabric};
use fab_tables::Tree;
use std::sync::ledger::Ledger;

/// Swaps two channels and adds the dependencies of the new tree, unless a walk would be closed; then the tree stays, and
/// none is added. True exactly where none would be closed.
pub(crate) fn try_swap<L: Ledger>(
    fabric: &Fabric,
    added: ChannelId,
    turned: ChannelId,
    used: &mut DepGraph,
    tree: &mut Tree,
    steps: &mut Steps<L>,
) -> bool
    requires fabric { IsFabric fabric.now }
    requires tree { IsTree fabric.now tree.old }
    requires new_tree { IsTree fabric.now (swapped fabric.now tree.old added.0 turned.0) }
    requires added { added.0 < length fabric.now.channels }
    requires turned { turned.0 < length fabric.now.channels }
    requires there { tail fabric.now turned.0 ≡ tip fabric.now added.0 }
    requires unsettled { next tree.old (tail fabric.now added.0) ≡ None }
    requires channels { used.old.channels ≡ length fabric.now.channels }
    requires spare { length fabric.now.switches ≤ used.old.spare }
    ensures changed { result ≡ true → tree.new ≡ swapped fabric.now tree.old added.0 turned.0 }
    ensures adds { result ≡ true → AddsTree fabric.now tree.new used.old used.new }
    ensures closes_none { result ≡ true →
        ClosesNone fabric.now (IsListed used.old.listed) (swapped fabric.now tree.old added.0 turned.0) }
    ensures closes { result ≡ false →
        ¬ ClosesNone fabric.now (IsListed used.old.listed) (swapped fabric.now tree.old added.0 turned.0) }
    ensures stays { result ≡ false → tree.new ≡ tree.old }
    ensures listed { result ≡ false → used.new.listed ≡ used.old.listed }
    ensures spare { result ≡ false → used.new.spare ≡ used.old.spare }
    ensures channels { used.new.channels ≡ used.old.channels }
    ensures counted { steps.old ≤ steps.new }
{
    let row = fabric.channel(added);
    let before = tree.next(row.tip);
    tree.set(fabric, row.tip, Some(turned));
    tree.set(fabric, row.tail, Some(added));
    match add_tree(fabric, tree, used, steps) {
        Added::Yes => true,
        Added::WouldClose => {
            tree.set(fabric, row.tip, before);
            tree.set(fabric, row.tail, None);
            false
        }
    }
}
