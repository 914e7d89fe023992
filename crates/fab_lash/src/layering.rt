//! Layers: each pair of different connected switches goes to the first lane that takes its dependencies.
//!
//! Time and memory for a pair are those of following its two routes and of trying their dependencies lane by lane.
//!
//! Source: Skeie, Lysne and Theiss, "Layered Shortest Path (LASH) Routing in Irregular System Area Networks", 2002;
//! OpenSM's document on routing, engine `lash`.
ghost use Rattle.std.specs.Prelude.{◌≡◌, ℕ, ◌<◌, length, IfOk, IfErr, All};
ghost use Rattle.fab_model.specs.WellFormed.{IsFabric};
ghost use Rattle.fab_tables.specs.Fit.{EntriesFit};
ghost use Rattle.fab_lash.specs.Placing.{channel_counts, listed_in, ListsPairs, IsPlacedPair, FitsNowhere};

use crate::layered::LashFault;
use crate::pair_routes::write_dependencies;
use crate::placing::place;
use fab_depgraph::{Dep, Layers, Steps};
use fab_model::{Fabric, SwitchId};
use fab_tables::{Components, Tables};
use std::sync::ledger::Ledger;

/// Places the dependencies of two switches, where they are a pair, and answers the lane; 0 where they are none. The
/// list is room for the dependencies.
pub(crate) fn place_pair<L: Ledger>(
    fabric: &Fabric,
    tables: &Tables,
    components: &Components,
    low: SwitchId,
    high: SwitchId,
    used: &mut Layers,
    dependencies: &mut Vec<Dep>,
    steps: &mut Steps<L>,
) -> Result<u8, LashFault>
    requires fabric { IsFabric fabric.now }
    requires tables { EntriesFit fabric.now tables.now }
    requires components { components.now ≡ fabric.now }
    requires low { low.0 < length fabric.now.switches }
    requires high { high.0 < length fabric.now.switches }
    requires channels { All (λ count. count ≡ length fabric.now.channels) (channel_counts used.old) }
    requires listed { (lane : ℕ) → ListsPairs fabric.now tables.now (listed_in used.old lane) }
    ensures placed { IfOk result (IsPlacedPair fabric.now tables.now low.0 high.0 used.old used.new) }
    ensures refusal { IfErr result (FitsNowhere fabric.now tables.now low.0 high.0 used.old) }
{
    if low.0 >= high.0 || !components.are_connected(low, high) {
        return Ok(0);
    }
    write_dependencies(fabric, tables, low, high, dependencies)?;
    match place(used, dependencies, steps)? {
        Some(lane) => Ok(lane),
        None => Err(LashFault::NeedsLane { low, high }),
    }
}
