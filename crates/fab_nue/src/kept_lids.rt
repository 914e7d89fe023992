//! The LIDs that an old plan keeps: in ascending order each whose routes are delivered, whose levels can stay, and whose
//! dependencies close no walk with those in use.
//!
//! Time: for each LID the hops of all old routes to it, a step for each lane and switch, and as many additions to the
//! arenas. Memory: 40 bytes for each dependency.
ghost use Rattle.std.specs.Prelude.{◌≡◌, ℕ, ◌*◌, ◌^◌, ◌≤◌, length, IfOk, OnOk, Contains};
ghost use Rattle.fab_model.specs.Topology.{lids_of};
ghost use Rattle.fab_model.specs.WellFormed.{IsFabric};
ghost use Rattle.fab_tables.specs.FixedEntries.{HasFixedEntries};
ghost use Rattle.fab_sssp.specs.WeightTables.{start_weights};
ghost use Rattle.fab_nue.specs.Arenas.{listed_in, channel_counts, HaveChannels, AreShort};
ghost use Rattle.fab_nue.specs.Kept.{HasSwitchesAndLids};
ghost use Rattle.fab_nue.specs.OldRoutes.{IsRouteTree, IsJoined, IsKeptOrNot};
ghost use Rattle.fab_nue.specs.Laying.{KeepsOldLids};

use crate::arenas::try_tree;
use crate::entries::take_tree;
use crate::lid_list::LidList;
use crate::old_levels::keep_levels;
use crate::old_routes::write_route_tree;
use crate::parts::write_part;
use fab_depgraph::{Added, Layers, Steps};
use fab_model::{Fabric, Lid};
use fab_sssp::Weights;
use fab_tables::{Components, Plan, Tables, Tree};
use std::alloc::{AllocError, Global};
use std::sync::ledger::Ledger;

/// Adds the dependencies of a LID's old routes in the lanes from one on, each in its lane, unless in one of them a walk
/// would be closed; then none is added. The routes go along the whole tree; the other one is room. The error is want
/// of memory.
fn join_from<L: Ledger>(
    fabric: &Fabric,
    old: &Plan,
    lid: Lid,
    whole: &Tree,
    lane: u8,
    used: &mut Layers,
    part: &mut Tree,
    steps: &mut Steps<L>,
) -> Result<bool, AllocError>
    requires fabric { IsFabric fabric.now }
    requires old { HasSwitchesAndLids fabric.now old.now }
    requires in_use { Contains (lids_of fabric.now) lid.0 }
    requires whole { IsRouteTree fabric.now old.now.tables lid.0 whole.now }
    requires lane { lane ≤ length used.old }
    requires channels { HaveChannels fabric.now used.old }
    requires short { (on_lane : ℕ) → lane ≤ on_lane → length (listed_in used.old on_lane) ≤ 2 ^ 31 }
    requires part { length part.old ≡ length fabric.now.switches }
    ensures joined { IfOk result (IsJoined fabric.now old.now lid.0 lane used.old used.new) }
    ensures part { length part.new ≡ length fabric.now.switches }
{
    if lane == used.lanes() {
        return Ok(true);
    }
    let mark = used.lane(lane).mark();
    write_part(fabric, old, lid, lane, whole, part);
    match try_tree(fabric, part, used, lane, steps)? {
        Added::Yes => {}
        Added::WouldClose => return Ok(false),
    }
    if join_from(fabric, old, lid, whole, lane + 1, used, part, steps)? {
        return Ok(true);
    }
    used.lane_mut(lane).undo_to(mark, steps);
    Ok(false)
}

/// Keeps a LID if it can stay beside what the arenas list: its dependencies are added there, and the whole tree is then
/// that of its old routes. The other tree is room. The error is want of memory.
pub(crate) fn keep<L: Ledger>(
    fabric: &Fabric,
    components: &Components,
    old: &Plan,
    lid: Lid,
    used: &mut Layers,
    whole: &mut Tree,
    part: &mut Tree,
    steps: &mut Steps<L>,
) -> Result<bool, AllocError>
    requires fabric { IsFabric fabric.now }
    requires components { components.now ≡ fabric.now }
    requires old { HasSwitchesAndLids fabric.now old.now }
    requires in_use { Contains (lids_of fabric.now) lid.0 }
    requires lanes { length used.old ≤ 15 }
    requires channels { HaveChannels fabric.now used.old }
    requires short { AreShort (2 ^ 31) used.old }
    requires whole { length whole.old ≡ length fabric.now.switches }
    requires part { length part.old ≡ length fabric.now.switches }
    ensures kept { IfOk result (IsKeptOrNot fabric.now old.now lid.0 used.old used.new whole.new) }
    ensures part { length part.new ≡ length fabric.now.switches }
{
    if !write_route_tree(fabric, components, &old.tables, lid, whole) {
        return Ok(false);
    }
    if !keep_levels(fabric, components, old, whole, lid, used.lanes()) {
        return Ok(false);
    }
    join_from(fabric, old, lid, whole, 0, used, part, steps)
}

/// Keeps of an old plan each LID that can stay, in ascending order. Their entries are set, and the weights raised along
/// their routes. The error is want of memory.
pub(crate) fn keep_lids<L: Ledger>(
    alloc: Global,
    fabric: &Fabric,
    components: &Components,
    old: &Plan,
    used: &mut Layers,
    tables: &mut Tables,
    weights: &mut Weights,
    steps: &mut Steps<L>,
) -> Result<LidList, AllocError>
    requires components { components.now ≡ fabric.now }
    requires old { HasSwitchesAndLids fabric.now old.now }
    requires lanes { length used.old ≤ 15 }
    requires channels { HaveChannels fabric.now used.old }
    requires short { AreShort (length fabric.now.switches * length fabric.now.switches) used.old }
    requires tables { HasFixedEntries fabric.now tables.old }
    requires weights { weights.old ≡ start_weights fabric.now }
    ensures kept { IfOk result (λ kept. KeepsOldLids fabric.now (length used.old) old.now kept used.old tables.new weights.new used.new) }
    ensures short { OnOk result (AreShort (2 ^ 31) used.new) }
    ensures channels { OnOk result (channel_counts used.new ≡ channel_counts used.old) }
{
    let mut whole = Tree::new(alloc, fabric)?;
    let mut part = Tree::new(alloc, fabric)?;
    let mut kept = LidList::new(alloc);
    for lid in fabric.lids_in_use() {
        if keep(
            fabric, components, old, *lid, used, &mut whole, &mut part, steps,
        )? {
            take_tree(fabric, *lid, &whole, tables, weights);
            kept.push(*lid)?;
        }
    }
    Ok(kept)
}
