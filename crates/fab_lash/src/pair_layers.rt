//! The layers of all pairs of switches, by (lower, higher), with the dependencies that each lane has then.
//!
//! Time: for each pair that of placing it. Memory: a byte for each two switches, beside the arenas.
//!
//! Source: Skeie, Lysne and Theiss, "Layered Shortest Path (LASH) Routing in Irregular System Area Networks", 2002;
//! OpenSM's document on routing, engine `lash`.
ghost use Rattle.std.specs.Prelude.{◌≡◌, ◌<◌, ◌*◌, [], length, IfOk, IfErr, All};
ghost use Rattle.fab_model.specs.WellFormed.{IsFabric};
ghost use Rattle.fab_tables.specs.Fit.{EntriesFit};
ghost use Rattle.fab_lash.specs.Placing.{channel_counts};
ghost use Rattle.fab_lash.specs.Layerings.{AreLayers, layer_of_two};
ghost use Rattle.fab_lash.specs.Layered.{AreUsed};
ghost use Rattle.fab_lash.specs.PairLayers.{layer_at, HasNoLayers};

use crate::layered::LashFault;
use crate::layering::place_pair;
use fab_depgraph::{Layers, Steps};
use fab_model::{Fabric, SwitchId};
use fab_tables::{Components, Tables};
use std::alloc::{AllocError, Global};
use std::sync::ledger::Ledger;

/// Places all pairs of switches in order in arenas that are empty. It answers for each switch a row, in it the layer
/// of the switch and each switch. The error is the first pair that no lane takes, or want of memory.
pub(crate) fn place_pairs<L: Ledger>(
    alloc: Global,
    fabric: &Fabric,
    tables: &Tables,
    components: &Components,
    used: &mut Layers,
    steps: &mut Steps<L>,
) -> Result<Vec<u8>, LashFault>
    requires fabric { IsFabric fabric.now }
    requires tables { EntriesFit fabric.now tables.now }
    requires components { components.now ≡ fabric.now }
    requires channels { All (λ graph. graph.channels ≡ length fabric.now.channels) used.old }
    requires empty { All (λ graph. graph.listed ≡ []) used.old }
    ensures entries { IfOk result (λ layers. length layers.items ≡ length fabric.now.switches * length fabric.now.switches) }
    ensures layers { IfOk result (λ layers. AreLayers fabric.now tables.now (length used.old) (layer_at (length fabric.now.switches) layers.items)) }
    ensures lists { IfOk result (λ layers. AreUsed fabric.now tables.now (length used.old) (layer_at (length fabric.now.switches) layers.items) used.new) }
    ensures refusal { IfErr result (HasNoLayers fabric.now tables.now (length used.old)) }
{
    let mut layers = Vec::new(alloc);
    let mut dependencies = Vec::new(alloc);
    for low in 0..fabric.switches() {
        for high in 0..fabric.switches() {
            let (low, high) = (SwitchId(low), SwitchId(high));
            let lane = place_pair(
                fabric,
                tables,
                components,
                low,
                high,
                used,
                &mut dependencies,
                steps,
            )?;
            layers.push(lane).map_err(AllocError::from)?;
        }
    }
    Ok(layers)
}

/// The layer of two switches in either order, 0 where they are one.
pub(crate) fn layer_of(layers: &[u8], switches: u32, a: SwitchId, b: SwitchId) -> u8
    requires layers { length layers.now ≡ switches * switches }
    requires first { a.0 < switches }
    requires second { b.0 < switches }
    ensures { result ≡ layer_of_two (layer_at switches layers.now) a.0 b.0 }
{
    if a.0 == b.0 {
        0
    } else if a.0 < b.0 {
        layers[a.0 as usize * switches as usize + b.0 as usize]
    } else {
        layers[b.0 as usize * switches as usize + a.0 as usize]
    }
}
