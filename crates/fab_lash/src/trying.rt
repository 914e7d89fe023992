//! Trying the dependencies of a pair in the arena of a lane.
//!
//! A dependency that the arena lists already is not added again. Time: that of as many additions, and where a walk
//! would be closed, of taking them back. No memory.
ghost use Rattle.std.specs.Prelude.{◌≡◌, ◌+◌, ◌<◌, ◌≤◌, length, All, true, false};
ghost use Rattle.fab_graph.specs.Walks.{IsAcyclic, HasClosedWalk};
ghost use Rattle.fab_depgraph.specs.Listed.{IsListed, IsWithin};
ghost use Rattle.fab_lash.specs.Adding.{with_dep};
ghost use Rattle.fab_lash.specs.Trying.{TakesAll, TakesNone};

use fab_depgraph::{Added, Dep, DepGraph, Steps};
use std::sync::ledger::Ledger;

/// Adds all the dependencies that the arena lacks, or none of them where a walk would be closed. It answers whether
/// all of them are there now.
pub(crate) fn takes<L: Ledger>(
    graph: &mut DepGraph,
    dependencies: &[Dep],
    steps: &mut Steps<L>,
) -> bool
    requires within { All (λ d. IsWithin graph.old.channels d) dependencies.now }
    requires spare { length dependencies.now ≤ graph.old.spare }
    ensures taken { result ≡ true → TakesAll graph.old graph.new dependencies.now }
    ensures refused { result ≡ false → TakesNone graph.old graph.new dependencies.now }
    ensures channels { graph.new.channels ≡ graph.old.channels }
{
    let mark = graph.mark();
    for dependency in dependencies {
        if !add_once(graph, *dependency, steps) {
            graph.undo_to(mark, steps);
            return false;
        }
    }
    true
}

/// Adds a dependency that the arena lacks. It answers whether it is there now; if not, a walk would be closed.
fn add_once<L: Ledger>(graph: &mut DepGraph, dependency: Dep, steps: &mut Steps<L>) -> bool
    requires within { IsWithin graph.old.channels dependency }
    requires spare { 0 < graph.old.spare }
    requires acyclic { IsAcyclic (IsListed graph.old.listed) }
    ensures listed { result ≡ true → graph.new.listed ≡ with_dep graph.old.listed dependency }
    ensures acyclic { result ≡ true → IsAcyclic (IsListed graph.new.listed) }
    ensures closes { result ≡ false → HasClosedWalk (IsListed (with_dep graph.old.listed dependency)) }
    ensures stays { result ≡ false → graph.new ≡ graph.old }
    ensures spare { graph.old.spare ≤ graph.new.spare + 1 }
    ensures channels { graph.new.channels ≡ graph.old.channels }
{
    if graph.count(dependency) > 0 {
        return true;
    }
    match graph.add(dependency, steps) {
        Added::Yes => true,
        Added::WouldClose => false,
    }
}
