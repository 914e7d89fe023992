//! The escape trees of all lanes, and one of them written as a tree towards a switch.
//!
//! A whole tree takes the time of a next channel for each switch, and no memory.
ghost use Rattle.std.specs.Prelude.{◌≡◌, ◌<◌, ◌≤◌, length, IfOk};
ghost use Rattle.fab_model.specs.WellFormed.{IsFabric};
ghost use Rattle.fab_hops.specs.HopCounts.{AreHops};
ghost use Rattle.fab_escape.specs.Forest.{escape_tree};
ghost use Rattle.fab_escape.specs.Trees.{IsEscapeForest};
ghost use Rattle.fab_nue.specs.Forests.{AreForests};

use fab_escape::Escape;
use fab_hops::Hops;
use fab_model::{Fabric, SwitchId};
use fab_tables::Tree;
use std::alloc::{AllocError, Global};

/// Lane by lane its escape trees. The error is want of memory.
pub(crate) fn forests_of(
    alloc: Global,
    fabric: &Fabric,
    hops: &Hops,
    lanes: u8,
) -> Result<Vec<Escape>, AllocError>
    requires hops { AreHops fabric.now hops.now }
    requires lanes { lanes ≤ 15 }
    ensures { IfOk result (λ forests. AreForests fabric.now lanes forests.items) }
{
    let mut forests = Vec::with_capacity(alloc, lanes as usize)?;
    for lane in 0..lanes {
        forests.push(Escape::of(alloc, fabric, hops, lane)?)?;
    }
    Ok(forests)
}

/// Writes the whole escape tree towards a switch. What the tree held before has no effect.
pub(crate) fn write_escape_tree(
    fabric: &Fabric,
    forest: &Escape,
    lane: u8,
    to: SwitchId,
    tree: &mut Tree,
)
    requires fabric { IsFabric fabric.now }
    requires forest { IsEscapeForest fabric.now lane forest.now }
    requires to { to.0 < length fabric.now.switches }
    requires tree { length tree.old ≡ length fabric.now.switches }
    ensures { tree.new ≡ escape_tree forest.now to.0 }
{
    for s in 0..fabric.switches() {
        tree.set(fabric, SwitchId(s), forest.next(SwitchId(s), to));
    }
}
