//! The routing engine DOR, dimension order: shortest routes by the least port. The port numbers stand for the
//! dimensions, so that ports must be cabled alike at all switches by whoever builds the fabric.
//!
//! Time: LIDs times switches and channels, less where a switch's first ports lead nearer. Memory: the tables.
//! Source: OpenSM's document on routing, engine `dor`; Dally and Seitz on dimension order. That
//! the least port is taken is this project's own rule.
ghost use Rattle.std.specs.Prelude.{◌<◌, length, IfOk};
ghost use Rattle.fab_model.specs.WellFormed.{IsFabric};
ghost use Rattle.fab_tables.specs.Certified.{Reaches};
ghost use Rattle.fab_tables.specs.FixedEntries.{HasFixedEntries};
ghost use Rattle.fab_hops.specs.HopCounts.{AreHops};
ghost use Rattle.fab_balance.specs.MinHop.{IsDorChoice, AreDorTables};
ghost use Rattle.fab_balance.specs.Choosing.{AreChosenAt, KeepsOtherSwitches};

use crate::fixed_entries::with_fixed_entries;
use crate::nearer_ports::least_nearer_port;
use fab_hops::Hops;
use fab_model::{Fabric, SwitchId};
use fab_tables::Tables;
use std::alloc::{AllocError, Global};

/// Shortest routes by the least port. The error is want of memory.
pub fn dor(alloc: Global, fabric: &Fabric, hops: &Hops) -> Result<Tables, AllocError>
    requires { AreHops fabric.now hops.now }
    ensures tables { IfOk result (λ tables. AreDorTables fabric.now tables) }
    ensures reaches { IfOk result (λ tables. Reaches fabric.now tables) }
{
    let mut tables = with_fixed_entries(alloc, fabric)?;
    for s in 0..fabric.switches() {
        choose_least(fabric, hops, SwitchId(s), &mut tables);
    }
    Ok(tables)
}

/// Chooses the entries of one switch.
fn choose_least(fabric: &Fabric, hops: &Hops, s: SwitchId, tables: &mut Tables)
    requires fabric { IsFabric fabric.now }
    requires hops { AreHops fabric.now hops.now }
    requires switch { s.0 < length fabric.now.switches }
    requires fixed { HasFixedEntries fabric.now tables.old }
    ensures fixed { HasFixedEntries fabric.now tables.new }
    ensures chosen { AreChosenAt fabric.now tables.new (IsDorChoice fabric.now) s.0 }
    ensures others { KeepsOtherSwitches s.0 tables.old tables.new }
{
    for lid in fabric.lids_in_use() {
        let place = fabric.place_of(*lid).unwrap();
        if let Some(port) = least_nearer_port(fabric, hops, s, place.switch) {
            tables.set(s, *lid, port);
        }
    }
}
