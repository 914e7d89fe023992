//! The arenas of the lanes, and the escape dependencies with which each of them begins.
//!
//! A switch's escape tree is at home in one lane, and has a dependency for each switch at most. So S switches take S
//! times S additions, and 40 bytes for each of them.
//!
//! Source: Domke, Hoefler and Matsuoka, "Routing on the Dependency Graph".
ghost use Rattle.std.specs.Prelude.{◌≡◌, ◌+◌, ◌*◌, ◌^◌, ◌<◌, ◌≤◌, [], length, IfOk, OnOk};
ghost use Rattle.fab_model.specs.WellFormed.{IsFabric};
ghost use Rattle.fab_tables.specs.TreeWalks.{IsTree};
ghost use Rattle.fab_nue.specs.Arenas.{listed_in, channel_counts, HaveChannels, AreListing, AreShort, IsTried};
ghost use Rattle.fab_nue.specs.Forests.{AreForests, forest_in, DependsTowards};
ghost use Rattle.fab_nue.specs.NuePlan.{DependsToEscapeIn};

use crate::adding::add_tree;
use crate::forests::write_escape_tree;
use fab_depgraph::{Added, Layers, Steps};
use fab_escape::Escape;
use fab_model::{Fabric, SwitchId};
use fab_tables::Tree;
use std::alloc::{AllocError, Global};
use std::sync::ledger::Ledger;

/// Adds the dependencies of a tree to those of a lane, unless a walk would be closed; then none is added. The error is
/// want of memory.
pub(crate) fn try_tree<L: Ledger>(
    fabric: &Fabric,
    tree: &Tree,
    used: &mut Layers,
    lane: u8,
    steps: &mut Steps<L>,
) -> Result<Added, AllocError>
    requires fabric { IsFabric fabric.now }
    requires tree { IsTree fabric.now tree.now }
    requires lane { lane < length used.old }
    requires channels { HaveChannels fabric.now used.old }
    requires short { length (listed_in used.old lane) + length fabric.now.switches < 2 ^ 32 }
    ensures { IfOk result (IsTried fabric.now tree.now lane used.old used.new) }
{
    let arena = used.lane_mut(lane);
    arena.reserve(fabric.switches())?;
    Ok(add_tree(fabric, tree, arena, steps))
}

/// Adds to empty arenas the escape dependencies of their lanes. The error is want of memory.
pub(crate) fn add_escapes<L: Ledger>(
    alloc: Global,
    fabric: &Fabric,
    forests: &[Escape],
    used: &mut Layers,
    steps: &mut Steps<L>,
) -> Result<(), AllocError>
    requires lanes { (0 < length used.old) × (length used.old ≤ 15) }
    requires forests { AreForests fabric.now (length used.old) forests.now }
    requires channels { HaveChannels fabric.now used.old }
    requires empty { AreShort 0 used.old }
    ensures listed { OnOk result (AreListing (length used.old) (λ on_lane c d. DependsToEscapeIn fabric.now (length used.old) (λ lane. forest_in forests.now lane) on_lane c d) used.new) }
    ensures short { OnOk result (AreShort (length fabric.now.switches * length fabric.now.switches) used.new) }
    ensures channels { OnOk result (channel_counts used.new ≡ channel_counts used.old) }
{
    let mut tree = Tree::new(alloc, fabric)?;
    for s in 0..fabric.switches() {
        add_escape_tree(fabric, forests, SwitchId(s), used, &mut tree, steps)?;
    }
    Ok(())
}

/// Adds the dependencies of the whole escape tree towards a switch, in the lane at home there. With those of smaller
/// switches they close no walk. The tree is room.
fn add_escape_tree<L: Ledger>(
    fabric: &Fabric,
    forests: &[Escape],
    to: SwitchId,
    used: &mut Layers,
    tree: &mut Tree,
    steps: &mut Steps<L>,
) -> Result<(), AllocError>
    requires fabric { IsFabric fabric.now }
    requires lanes { (0 < length used.old) × (length used.old ≤ 15) }
    requires forests { AreForests fabric.now (length used.old) forests.now }
    requires to { to.0 < length fabric.now.switches }
    requires tree { length tree.old ≡ length fabric.now.switches }
    requires channels { HaveChannels fabric.now used.old }
    requires short { AreShort (to.0 * length fabric.now.switches) used.old }
    requires before { AreListing (length used.old) (λ on_lane c d. DependsTowards fabric.now (length used.old) (λ lane. forest_in forests.now lane) to.0 on_lane c d) used.old }
    ensures after { OnOk result (AreListing (length used.old) (λ on_lane c d. DependsTowards fabric.now (length used.old) (λ lane. forest_in forests.now lane) (to.0 + 1) on_lane c d) used.new) }
    ensures short { OnOk result (AreShort ((to.0 + 1) * length fabric.now.switches) used.new) }
    ensures channels { OnOk result (channel_counts used.new ≡ channel_counts used.old) }
    ensures tree { length tree.new ≡ length fabric.now.switches }
{
    let lane = (to.0 % u32::from(used.lanes())) as u8;
    write_escape_tree(fabric, &forests[lane as usize], lane, to, tree);
    match try_tree(fabric, tree, used, lane, steps)? {
        Added::Yes => Ok(()),
        Added::WouldClose => unreachable!(),
    }
}
