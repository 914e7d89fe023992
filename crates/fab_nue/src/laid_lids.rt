//! LID after LID is laid, in ascending order and each in its home lane: by the tree of its guarded search, or where that
//! gets stuck by the whole escape tree, whose dependencies are in use already.
//!
//! Time: a search for each LID, and linear time in switches and terminals. Memory is taken before the first search: for
//! each LID 40 bytes a switch.
//!
//! Source: Domke, Hoefler and Matsuoka, "Routing on the Dependency Graph".
ghost use Rattle.std.specs.Prelude.{◌≡◌, ℕ, ◌^◌, ◌<◌, ◌≤◌, length, Contains, OnOk};
ghost use Rattle.fab_model.specs.Topology.{lids_of};
ghost use Rattle.fab_model.specs.WellFormed.{IsFabric};
ghost use Rattle.fab_sssp.specs.WeightTables.{weight_of, WeightsFit};
ghost use Rattle.fab_depgraph.specs.Listed.{IsListed};
ghost use Rattle.fab_escape.specs.EscapeSet.{home as home_lane};
ghost use Rattle.fab_nue.specs.Arenas.{listed_in, spare_in, channel_counts, HaveChannels, AreShort};
ghost use Rattle.fab_nue.specs.Forests.{AreForests, forest_in, DependsTowards};
ghost use Rattle.fab_nue.specs.Laying.{IsLaidIn, BeginsLaying, EndsLaying, HasRoomToLay, left_to_lay, is_laid_in as laid_in_lane};

use crate::entries::take_tree;
use crate::forests::write_escape_tree;
use crate::guarded_search::{Searched, search};
use crate::home_lanes::home;
use crate::lid_list::LidList;
use crate::room::Room;
use fab_depgraph::{Layers, Steps};
use fab_escape::Escape;
use fab_model::{Fabric, Lid};
use fab_sssp::Weights;
use fab_tables::{Tables, Tree};
use std::alloc::{AllocError, Global};
use std::sync::ledger::Ledger;

/// Lays a LID in its home lane beside what is in use there: its search, or the whole escape tree where the search gets
/// stuck. What the tree held before has no effect.
pub(crate) fn lay_tree<L: Ledger>(
    fabric: &Fabric,
    forests: &[Escape],
    weights: &Weights,
    lid: Lid,
    used: &mut Layers,
    tree: &mut Tree,
    room: &mut Room,
    steps: &mut Steps<L>,
)
    requires fabric { IsFabric fabric.now }
    requires in_use { Contains (lids_of fabric.now) lid.0 }
    requires lanes { (0 < length used.old) × (length used.old ≤ 15) }
    requires forests { AreForests fabric.now (length used.old) forests.now }
    requires weights { WeightsFit fabric.now weights.now }
    requires channels { HaveChannels fabric.now used.old }
    requires spare { length fabric.now.switches ≤ spare_in used.old (home_lane fabric.now lid.0 (length used.old)) }
    requires escapes { (c d : ℕ) → DependsTowards fabric.now (length used.old) (λ lane. forest_in forests.now lane) (length fabric.now.switches) (home_lane fabric.now lid.0 (length used.old)) c d →
        IsListed (listed_in used.old (home_lane fabric.now lid.0 (length used.old))) c d }
    requires tree { length tree.old ≡ length fabric.now.switches }
    requires room { room.old ≡ length fabric.now.channels }
    ensures laid { IsLaidIn fabric.now (λ c. weight_of weights.now c) (forest_in forests.now (home_lane fabric.now lid.0 (length used.old))) lid.0
        (home_lane fabric.now lid.0 (length used.old)) used.old used.new tree.new }
    ensures room { room.new ≡ room.old }
{
    let lane = home(fabric, lid, used.lanes());
    let arena = used.lane_mut(lane);
    match search(fabric, weights, arena, lid, tree, room, steps) {
        Searched::Complete => {}
        Searched::Impasse => {
            let to = fabric.place_of(lid).unwrap().switch;
            write_escape_tree(fabric, &forests[lane as usize], lane, to, tree);
        }
    }
}

/// Lays all LIDs that aren't kept, in ascending order. The kept ones are laid already. The error is want of memory.
pub(crate) fn lay_lids<L: Ledger>(
    alloc: Global,
    fabric: &Fabric,
    forests: &[Escape],
    kept: &LidList,
    used: &mut Layers,
    tables: &mut Tables,
    weights: &mut Weights,
    steps: &mut Steps<L>,
) -> Result<(), AllocError>
    requires lanes { (0 < length used.old) × (length used.old ≤ 15) }
    requires forests { AreForests fabric.now (length used.old) forests.now }
    requires channels { HaveChannels fabric.now used.old }
    requires short { AreShort (2 ^ 31) used.old }
    requires begun { BeginsLaying fabric.now (length used.old) kept.now (λ lane. forest_in forests.now lane) tables.old weights.old used.old }
    ensures laid { OnOk result (EndsLaying fabric.now (length used.old) kept.now (λ lane. forest_in forests.now lane)
        tables.old weights.old used.old tables.new weights.new used.new) }
    ensures channels { OnOk result (channel_counts used.new ≡ channel_counts used.old) }
{
    make_room(fabric, kept, used)?;
    let mut tree = Tree::new(alloc, fabric)?;
    let mut room = Room::new(alloc, fabric)?;
    for lid in fabric.lids_in_use() {
        if !kept.contains(*lid) {
            lay_tree(
                fabric, forests, weights, *lid, used, &mut tree, &mut room, steps,
            );
            take_tree(fabric, *lid, &tree, tables, weights);
        }
    }
    Ok(())
}

/// Makes room in each lane for the trees of all LIDs that are laid there.
fn make_room(fabric: &Fabric, kept: &LidList, used: &mut Layers) -> Result<(), AllocError>
    requires lanes { (0 < length used.old) × (length used.old ≤ 15) }
    requires short { AreShort (2 ^ 31) used.old }
    ensures room { OnOk result (HasRoomToLay fabric.now (length used.old) kept.now 0 used.new) }
    ensures listed { (on_lane : ℕ) → listed_in used.new on_lane ≡ listed_in used.old on_lane }
    ensures channels { channel_counts used.new ≡ channel_counts used.old }
{
    for lane in 0..used.lanes() {
        let laid = count_laid(fabric, kept, used.lanes(), lane);
        used.lane_mut(lane).reserve(laid * fabric.switches())?;
    }
    Ok(())
}

/// How many LIDs are laid in a lane.
fn count_laid(fabric: &Fabric, kept: &LidList, lanes: u8, lane: u8) -> u32
    requires lanes { (0 < lanes) × (lanes ≤ 15) }
    ensures count { result ≡ left_to_lay fabric.now lanes kept.now lane 0 }
    ensures few { result ≤ 16384 }
{
    let mut laid = 0;
    for lid in fabric.lids_in_use() {
        if is_laid_in(fabric, kept, lanes, lane, *lid) {
            laid += 1;
        }
    }
    laid
}

/// Whether a LID is laid in a lane.
fn is_laid_in(fabric: &Fabric, kept: &LidList, lanes: u8, lane: u8, lid: Lid) -> bool
    requires in_use { Contains (lids_of fabric.now) lid.0 }
    requires lanes { (0 < lanes) × (lanes ≤ 15) }
    ensures { result ≡ laid_in_lane fabric.now lanes kept.now lane lid.0 }
{
    home(fabric, lid, lanes) == lane && !kept.contains(lid)
}
