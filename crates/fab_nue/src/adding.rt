//! Adding the dependencies of a tree to those in use.
//!
//! A switch's channel depends on the channel of the switch to which it leads, so a tree has at most one dependency for
//! each switch. One addition is one of the arena; a whole tree takes one for each switch. No memory.
ghost use Rattle.std.specs.Prelude.{◌≡◌, ◌+◌, ◌≤◌, ◌<◌, ◌++◌, length};
ghost use Rattle.fab_graph.specs.Walks.{IsAcyclic, HasClosedWalk};
ghost use Rattle.fab_model.specs.WellFormed.{IsFabric};
ghost use Rattle.fab_tables.specs.Route.{tip};
ghost use Rattle.fab_tables.specs.Trees.{next};
ghost use Rattle.fab_tables.specs.TreeWalks.{IsTree};
ghost use Rattle.fab_depgraph.specs.Listed.{IsListed};
ghost use Rattle.fab_nue.specs.Search.{ClosesNone};
ghost use Rattle.fab_nue.specs.Added.{dep_behind, AddsTree};

use fab_depgraph::{Added, Dep, DepGraph, Steps};
use fab_model::{ChannelId, Fabric, SwitchId};
use fab_tables::Tree;
use std::sync::ledger::Ledger;

/// Adds the dependency of a channel on that of the switch to which it leads, unless a walk would be closed. Where that
/// switch has none there is nothing to add.
pub(crate) fn add_behind<L: Ledger>(
    fabric: &Fabric,
    tree: &Tree,
    used: &mut DepGraph,
    channel: ChannelId,
    steps: &mut Steps<L>,
) -> Added
    requires fabric { IsFabric fabric.now }
    requires tree { IsTree fabric.now tree.now }
    requires channel { channel.0 < length fabric.now.channels }
    requires channels { used.old.channels ≡ length fabric.now.channels }
    requires spare { 0 < used.old.spare }
    ensures closes { result ≡ Added.WouldClose →
        HasClosedWalk (IsListed (used.old.listed ++ dep_behind channel.0 (next tree.now (tip fabric.now channel.0)))) }
    ensures stays { result ≡ Added.WouldClose → used.new ≡ used.old }
    ensures acyclic { result ≡ Added.Yes → IsAcyclic (IsListed used.new.listed) }
    ensures added { result ≡ Added.Yes →
        used.new.listed ≡ used.old.listed ++ dep_behind channel.0 (next tree.now (tip fabric.now channel.0)) }
    ensures spare { result ≡ Added.Yes →
        used.old.spare ≡ used.new.spare + length (dep_behind channel.0 (next tree.now (tip fabric.now channel.0))) }
    ensures channels { used.new.channels ≡ used.old.channels }
    ensures counted { steps.old ≤ steps.new }
{
    let _present = used.mark();
    match tree.next(fabric.tip(channel)) {
        Some(second) => {
            let dep = Dep {
                first: channel,
                second,
            };
            used.add(dep, steps)
        }
        None => Added::Yes,
    }
}

/// Adds the dependencies of a tree, unless a walk would be closed; then none is added.
pub(crate) fn add_tree<L: Ledger>(
    fabric: &Fabric,
    tree: &Tree,
    used: &mut DepGraph,
    steps: &mut Steps<L>,
) -> Added
    requires tree { IsTree fabric.now tree.now }
    requires channels { used.old.channels ≡ length fabric.now.channels }
    requires spare { length fabric.now.switches ≤ used.old.spare }
    ensures added { result ≡ Added.Yes → AddsTree fabric.now tree.now used.old used.new }
    ensures closes_none { result ≡ Added.Yes → ClosesNone fabric.now (IsListed used.old.listed) tree.now }
    ensures closes { result ≡ Added.WouldClose → ¬ ClosesNone fabric.now (IsListed used.old.listed) tree.now }
    ensures listed { result ≡ Added.WouldClose → used.new.listed ≡ used.old.listed }
    ensures spare { result ≡ Added.WouldClose → used.new.spare ≡ used.old.spare }
    ensures channels { used.new.channels ≡ used.old.channels }
    ensures counted { steps.old ≤ steps.new }
{
    let mark = used.mark();
    for s in 0..fabric.switches() {
        if let Some(channel) = tree.next(SwitchId(s)) {
            match add_behind(fabric, tree, used, channel, steps) {
                Added::Yes => {}
                Added::WouldClose => {
                    used.undo_to(mark, steps);
                    return Added::WouldClose;
                }
            }
        }
    }
    Added::Yes
}
