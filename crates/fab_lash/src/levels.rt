//! Lanes whose levels are layers: each source sends to a LID on the level of the layer of the two switches.
//!
//! Time: a step for each LID and each terminal. Memory: for each switch and LID, each channel and each terminal.
//!
//! Source: Skeie, Lysne and Theiss, "Layered Shortest Path (LASH) Routing in Irregular System Area Networks", 2002;
//! the service levels (SL) of InfiniBand.
ghost use Rattle.std.specs.Prelude.{◌≡◌, ◌<◌, ◌≤◌, ◌*◌, length, IfOk, Contains};
ghost use Rattle.fab_model.specs.WellFormed.{IsFabric};
ghost use Rattle.fab_model.specs.Topology.{lids_of};
ghost use Rattle.fab_tables.specs.Fit.{LanesFit};
ghost use Rattle.fab_tables.specs.LaneTables.{HasLanePerLevel};
ghost use Rattle.fab_tables.specs.Starts.{AreStarts};
ghost use Rattle.fab_certify.specs.EnginePlans.{HasLevels};
ghost use Rattle.fab_lash.specs.Layered.{IsLayerLevel};
ghost use Rattle.fab_lash.specs.PairLayers.{layer_at, AreBelow};
ghost use Rattle.fab_lash.specs.Leveling.{IsLeveling, KeepsLevels, HasLevelsFor, layer_for};

use crate::pair_layers::layer_of;
use fab_certify::engine_lanes;
use fab_model::{Fabric, Lid};
use fab_tables::{Components, Lanes, Start, starts_of};
use std::alloc::{AllocError, Global};

/// Lanes of this count with the engines' maps, and with the layers as levels. The error is want of memory.
pub(crate) fn layer_lanes(
    alloc: Global,
    fabric: &Fabric,
    components: &Components,
    layers: &[u8],
    count: u8,
) -> Result<Lanes, AllocError>
    requires fabric { IsFabric fabric.now }
    requires components { components.now ≡ fabric.now }
    requires count { (0 < count) × (count ≤ 15) }
    requires entries { length layers.now ≡ length fabric.now.switches * length fabric.now.switches }
    requires below { AreBelow fabric.now (layer_at (length fabric.now.switches) layers.now) count }
    ensures fits { IfOk result (λ lanes. LanesFit fabric.now lanes) }
    ensures count { IfOk result (λ lanes. lanes.count ≡ count) }
    ensures maps { IfOk result (λ lanes. HasLanePerLevel lanes) }
    ensures levels { IfOk result (λ lanes. HasLevels fabric.now lanes (IsLayerLevel fabric.now (layer_at (length fabric.now.switches) layers.now))) }
{
    let mut lanes = engine_lanes(alloc, fabric, count)?;
    let starts = starts_of(alloc, fabric)?;
    for lid in fabric.lids_in_use() {
        set_levels(fabric, *lid, components, &starts, layers, &mut lanes);
    }
    Ok(lanes)
}

/// Gives each source connected to a LID its level.
fn set_levels(
    fabric: &Fabric,
    lid: Lid,
    components: &Components,
    starts: &[Start],
    layers: &[u8],
    lanes: &mut Lanes,
)
    requires fabric { IsFabric fabric.now }
    requires in_use { Contains (lids_of fabric.now) lid.0 }
    requires components { components.now ≡ fabric.now }
    requires starts { AreStarts fabric.now starts.now }
    requires entries { length layers.now ≡ length fabric.now.switches * length fabric.now.switches }
    requires below { AreBelow fabric.now (layer_at (length fabric.now.switches) layers.now) lanes.old.count }
    requires before { IsLeveling fabric.now (layer_for fabric.now (layer_at (length fabric.now.switches) layers.now)) lanes.old }
    ensures after { IsLeveling fabric.now (layer_for fabric.now (layer_at (length fabric.now.switches) layers.now)) lanes.new }
    ensures count { lanes.new.count ≡ lanes.old.count }
    ensures kept { KeepsLevels (layer_for fabric.now (layer_at (length fabric.now.switches) layers.now)) lanes.old lanes.new }
    ensures has { HasLevelsFor fabric.now (layer_for fabric.now (layer_at (length fabric.now.switches) layers.now)) lanes.new lid.0 }
{
    let Some(place) = fabric.place_of(lid) else {
        return;
    };
    for start in starts {
        if components.are_connected(start.switch, place.switch) {
            let layer = layer_of(layers, fabric.switches(), start.switch, place.switch);
            lanes.set_level(start.switch, lid, Some(layer));
        }
    }
}
