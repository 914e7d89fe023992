//! The roots of a lane's escape trees.
//!
//! The root of a component of n switches is the switch at place `lane mod n` of its centre order (`IsRoot` in
//! `specs/Trees.antt`). A switch with an earlier one in its component has the root of that one, so each component is
//! ordered once. For S switches it takes O(S * S) time beside the centre orders, and 4 bytes for each switch.
ghost use Rattle.std.specs.Prelude.{◌≡◌, ◌≢◌, ℕ, ◌<◌, length, None, slice_index_or, IfOk, IfSome};
ghost use Rattle.fab_model.specs.Topology.{Topology};
ghost use Rattle.fab_model.specs.WellFormed.{IsFabric, IsWellFormed};
ghost use Rattle.fab_hops.specs.HopCounts.{AreHops, hop_count};
ghost use Rattle.fab_escape.specs.Trees.{IsRoot, AreRoots};

use fab_hops::Hops;
use fab_model::{Fabric, SwitchId};
use std::alloc::{AllocError, Global};

/// The root of each switch's tree, by switch. The error is want of memory.
pub(crate) fn roots_of(
    alloc: Global,
    fabric: &Fabric,
    hops: &Hops,
    lane: u8,
) -> Result<Vec<u32>, AllocError>
    requires hops { AreHops fabric.now hops.now }
    ensures roots { IfOk result (λ roots. AreRoots fabric.now lane (length fabric.now.switches) roots.items) }
    ensures kept { IsFabric fabric.now }
{
    let mut roots = Vec::new(alloc);
    for index in 0..fabric.switches() {
        let s = SwitchId(index);
        let root = match connected_before(hops, s) {
            Some(other) => roots[other.0 as usize],
            None => root_in(alloc, hops, s, lane)?.0,
        };
        roots.push(root)?;
    }
    Ok(roots)
}

/// A switch with a smaller number in the same component.
fn connected_before(hops: &Hops, s: SwitchId) -> Option<SwitchId>
    requires { s.0 < hops.now.switches }
    ensures { IfSome result (λ other. (other.0 < s.0) × (hop_count hops.now s.0 other.0 ≢ None)) }
{
    for index in 0..s.0 {
        let other = SwitchId(index);
        if hops.hop(s, other).is_some() {
            return Some(other);
        }
    }
    None
}

/// The root in the component of a switch.
fn root_in(alloc: Global, hops: &Hops, s: SwitchId, lane: u8) -> Result<SwitchId, AllocError>
    requires fabric { (t : Topology) × IsWellFormed t × AreHops t hops.now }
    requires from { s.0 < hops.now.switches }
    ensures { IfOk result (λ root. (t : Topology) → IsWellFormed t → AreHops t hops.now → IsRoot t lane s.0 root.0) }
{
    let order = hops.centre_order(alloc, s)?;
    Ok(order[lane as usize % order.len()])
}
