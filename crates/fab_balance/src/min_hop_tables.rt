//! The routing engine Min Hop: shortest routes, balanced by the number of terminals' LIDs that go by each port.
//!
//! For each switch the LIDs are gone through in ascending order. A port is eligible for a LID where its channel leads
//! to a switch with one hop less to the LID's switch; the entry is the eligible port with the least load, and of
//! those the least one. The load of a port is the number of terminals' LIDs that went by it so far at this switch.
//!
//! Time: LIDs times switches and channels. Memory: the tables, and about 1 KiB.
//! Source: OpenSM's document on routing, engine `minhop`; the load and the order of ties are this project's own.
ghost use Rattle.std.specs.Prelude.{◌<◌, length, IfOk, OnOk};
ghost use Rattle.fab_model.specs.WellFormed.{IsFabric};
ghost use Rattle.fab_tables.specs.Certified.{Reaches};
ghost use Rattle.fab_tables.specs.FixedEntries.{HasFixedEntries};
ghost use Rattle.fab_hops.specs.HopCounts.{AreHops};
ghost use Rattle.fab_balance.specs.MinHop.{IsMinHopChoice, AreMinHopTables};
ghost use Rattle.fab_balance.specs.Choosing.{AreChosenAt, KeepsOtherSwitches};

use crate::choice::pick;
use crate::fixed_entries::with_fixed_entries;
use crate::nearer_ports::find_nearer_ports;
use fab_hops::Hops;
use fab_model::{Fabric, SwitchId};
use fab_tables::Tables;
use std::alloc::{AllocError, Global};

/// Shortest routes, balanced by the number of terminals' LIDs at each port. The error is want of memory.
pub fn minhop(alloc: Global, fabric: &Fabric, hops: &Hops) -> Result<Tables, AllocError>
    requires { AreHops fabric.now hops.now }
    ensures tables { IfOk result (λ tables. AreMinHopTables fabric.now tables) }
    ensures reaches { IfOk result (λ tables. Reaches fabric.now tables) }
{
    let mut tables = with_fixed_entries(alloc, fabric)?;
    let mut eligible = Vec::with_capacity(alloc, 255)?;
    for s in 0..fabric.switches() {
        choose_balanced(fabric, hops, SwitchId(s), &mut tables, &mut eligible)?;
    }
    Ok(tables)
}

/// Chooses the entries of one switch. The list is room for the eligible ports.
fn choose_balanced(
    fabric: &Fabric,
    hops: &Hops,
    s: SwitchId,
    tables: &mut Tables,
    eligible: &mut Vec<u8>,
) -> Result<(), AllocError>
    requires fabric { IsFabric fabric.now }
    requires hops { AreHops fabric.now hops.now }
    requires switch { s.0 < length fabric.now.switches }
    requires fixed { HasFixedEntries fabric.now tables.old }
    ensures fixed { OnOk result (HasFixedEntries fabric.now tables.new) }
    ensures chosen { OnOk result (AreChosenAt fabric.now tables.new (IsMinHopChoice fabric.now tables.new) s.0) }
    ensures others { KeepsOtherSwitches s.0 tables.old tables.new }
{
    let mut loads = [0u32; 256];
    for lid in fabric.lids_in_use() {
        let place = fabric.place_of(*lid).unwrap();
        find_nearer_ports(fabric, hops, s, place.switch, eligible)?;
        if let Some(port) = pick(&loads, eligible) {
            tables.set(s, *lid, port);
        }
        if place.port > 0 {
            loads[tables.get(s, *lid) as usize] += 1;
        }
    }
    Ok(())
}
