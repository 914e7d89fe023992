//! The tree of a group: where the ways lie between its members.
//!
//! Problem: of the escape trees of lane 0 the part that joins a group's members, those of each component by
//! themselves. The ways from all members of a component to its first member make up that part, since ways of a tree
//! that come to one switch go on together. So each way is marked until it comes to a switch that is marked: each switch
//! of the part is passed once. Definition: `IsMarkedTree` in `specs/Ways.antt`.
//!
//! Cost: for M members, and P switches on their ways, O(M + P log D) time in trees of depth D, and 9 bytes for each
//! switch of the fabric.
ghost use Rattle.std.specs.Prelude.{◌≡◌, ◌<◌, length, map, All, IfOk};
ghost use Rattle.fab_model.specs.declared.rows.TerminalId.{TerminalId as Number};
ghost use Rattle.fab_model.specs.WellFormed.{IsFabric};
ghost use Rattle.fab_escape.specs.Forest.{root_of};
ghost use Rattle.fab_escape.specs.Trees.{IsEscapeForest};
ghost use Rattle.fab_mcast.specs.Ways.{IsMarkedTree, HasMarkedWay};

use fab_escape::Escape;
use fab_model::{Fabric, SwitchId, TerminalId};
use std::alloc::{AllocError, Global};

/// The marked ways of a group.
#[derive(Drop)]
pub(crate) struct MarkedTree {
    // by the root of a component, the switch of its first member
    pub homes: Vec<Option<u32>>,
    // by switch, whether a way from a member to the first one of its component passes it
    pub passed: Vec<bool>,
}

/// Marks the ways from all members to the first one of their component. The error is want of memory.
pub(crate) fn mark_ways(
    alloc: Global,
    fabric: &Fabric,
    escape: &Escape,
    members: &[TerminalId],
) -> Result<MarkedTree, AllocError>
    requires forest { IsEscapeForest fabric.now 0 escape.now }
    requires known { All (λ n. n < length fabric.now.terminals) (map (λ (id : Number). id.0) members.now) }
    ensures { IfOk result (λ tree. IsMarkedTree fabric.now escape.now (map (λ (id : Number). id.0) members.now) tree.homes.items tree.passed.items) }
{
    let mut homes = vec![in alloc; None; fabric.switches() as usize]?;
    let mut passed = vec![in alloc; false; fabric.switches() as usize]?;
    for member in members {
        let at = fabric.terminal(*member).switch;
        let root = escape.root(at).0 as usize;
        let home = homes[root].unwrap_or(at.0);
        homes[root] = Some(home);
        mark_way(fabric, escape, at, SwitchId(home), &mut passed);
    }
    Ok(MarkedTree { homes, passed })
}

/// Marks the way from a switch home, until it comes to a marked switch.
fn mark_way(fabric: &Fabric, escape: &Escape, from: SwitchId, home: SwitchId, passed: &mut [bool])
    requires fabric { IsFabric fabric.now }
    requires forest { IsEscapeForest fabric.now 0 escape.now }
    requires from { from.0 < length fabric.now.switches }
    requires home { home.0 < length fabric.now.switches }
    requires joined { root_of escape.now from.0 ≡ root_of escape.now home.0 }
    requires each { length passed.old ≡ length fabric.now.switches }
    ensures { HasMarkedWay fabric.now escape.now from.0 home.0 passed.old passed.new }
{
    let mut at = from;
    while !passed[at.0 as usize] {
        passed[at.0 as usize] = true;
        match escape.next(at, home) {
            Some(channel) => at = fabric.tip(channel),
            None => return,
        }
    }
}
