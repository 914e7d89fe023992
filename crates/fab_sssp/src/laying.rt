//! Single-source shortest path tables: LID after LID, in ascending order, takes walks of least weight to its switch,
//! and raises the weights of the channels that they use. A least walk has least hops, since all weights are nearly
//! the same, so the tables are shortest routes balanced over the whole fabric.
//!
//! Time: for each LID a search for distances and two looks at each channel; memory: the tables, the weights, and what
//! one search takes. Source: OpenSM's document on routing, engine `sssp`; Domke, Hoefler and Nagel on DFSSSP. The
//! weights are this project's own.
ghost use Rattle.std.specs.Prelude.{◌≡◌, ◌≢◌, ◌<◌, length, Contains, IfOk, IfSome, OnOk, option_map};
ghost use Rattle.fab_model.specs.declared.rows.ChannelId.{ChannelId as Channel};
ghost use Rattle.fab_model.specs.Topology.{lids_of};
ghost use Rattle.fab_model.specs.WellFormed.{IsFabric};
ghost use Rattle.fab_tables.specs.Certified.{Reaches};
ghost use Rattle.fab_tables.specs.Fit.{EntriesFit};
ghost use Rattle.fab_tables.specs.TreeWalks.{IsTree};
ghost use Rattle.fab_sssp.specs.WeightTables.{weight_of, WeightsFit};
ghost use Rattle.fab_sssp.specs.LeastWeight.{AreDistances};
ghost use Rattle.fab_sssp.specs.LeastWeightTables.{AreLeastWeightTables};
ghost use Rattle.fab_sssp.specs.Laying.{port_along, HasItsChannel, IsLaid, KeepsOtherLids};

use crate::search::distances;
use crate::weights::Weights;
use fab_model::{ChannelId, Fabric, Lid, Place, SwitchId};
use fab_tables::{Tables, Tree};
use std::alloc::{AllocError, Global};

/// The entry of a switch that has no route to a LID.
const NO_ROUTE: u8 = 255;

/// The tables in which each LID takes walks of least weight, the smaller LIDs being laid before it. The error is want
/// of memory.
pub fn lay(alloc: Global, fabric: &Fabric) -> Result<Tables, AllocError>
    ensures tables { IfOk result (λ tables. AreLeastWeightTables fabric.now tables) }
    ensures reaches { IfOk result (λ tables. Reaches fabric.now tables) }
{
    let mut tables = Tables::new(alloc, fabric)?;
    let mut weights = Weights::new(alloc, fabric)?;
    let mut tree = Tree::new(alloc, fabric)?;
    for lid in fabric.lids_in_use() {
        lay_lid(alloc, fabric, &weights, *lid, &mut tree, &mut tables)?;
        weights.raise(fabric, &tree);
    }
    Ok(tables)
}

/// Gives each switch its channel to a LID and the entry that goes along it. What the tree held before has no effect.
fn lay_lid(
    alloc: Global,
    fabric: &Fabric,
    weights: &Weights,
    lid: Lid,
    tree: &mut Tree,
    tables: &mut Tables,
) -> Result<(), AllocError>
    requires fabric { IsFabric fabric.now }
    requires made_for { WeightsFit fabric.now weights.now }
    requires in_use { Contains (lids_of fabric.now) lid.0 }
    requires tree { length tree.old ≡ length fabric.now.switches }
    requires fits { EntriesFit fabric.now tables.old }
    ensures tree { OnOk result (IsTree fabric.now tree.new) }
    ensures fits { OnOk result (EntriesFit fabric.now tables.new) }
    ensures laid { OnOk result (IsLaid fabric.now (λ c. weight_of weights.now c) tables.new lid.0 tree.new) }
    ensures others { OnOk result (KeepsOtherLids lid.0 tables.old tables.new) }
{
    let place = fabric.place_of(lid).unwrap();
    let found = distances(alloc, fabric, weights, place.switch)?;
    for s in 0..fabric.switches() {
        let switch = SwitchId(s);
        let channel = least_channel(fabric, weights, &found, switch, place.switch);
        tree.set(fabric, switch, channel);
        tables.set(switch, lid, entry_along(fabric, place, switch, channel));
    }
    Ok(())
}

/// The channel of a switch that begins a walk of least weight to another one, by the least port; None exactly at that
/// one, and where not connected.
fn least_channel(
    fabric: &Fabric,
    weights: &Weights,
    distances: &[Option<u64>],
    s: SwitchId,
    to: SwitchId,
) -> Option<ChannelId>
    requires fabric { IsFabric fabric.now }
    requires made_for { WeightsFit fabric.now weights.now }
    requires s { s.0 < length fabric.now.switches }
    requires distances { AreDistances fabric.now (λ c. weight_of weights.now c) to.0 distances.now }
    ensures { HasItsChannel fabric.now (λ c. weight_of weights.now c) s.0 to.0 (option_map (λ (c : Channel). c.0) result) }
{
    if s == to {
        return None;
    }
    let distance = distances[s.0 as usize]?;
    let (first, past) = fabric.leaves(s);
    for number in first..past {
        let channel = ChannelId(number);
        if let Some(beyond) = distances[fabric.tip(channel).0 as usize] {
            if weights.of(channel) + beyond == distance {
                return Some(channel);
            }
        }
    }
    None
}

/// The entry of a switch for a LID: the port of its channel, the place's port at the LID's own switch, else 255.
fn entry_along(fabric: &Fabric, place: Place, s: SwitchId, channel: Option<ChannelId>) -> u8
    requires { IfSome channel (λ c. c.0 < length fabric.now.channels) }
    ensures { result ≡ port_along fabric.now place s.0 (option_map (λ (c : Channel). c.0) channel) }
{
    match channel {
        Some(c) => fabric.channel(c).port,
        None if s == place.switch => place.port,
        None => NO_ROUTE,
    }
}
