//! Up/down tables: by costs on the way to each switch, balanced by the number of terminals that each port leads to.
//!
//! For each switch the LIDs are gone through in ascending order. The entry is the legal port with the least load, and
//! of those the least one. The load of a port is the number of terminals' LIDs that went by it so far at this switch.
//!
//! Time: the sum over the switches of LIDs times channels of the switch. Memory: the tables, and 2 KiB.
//! Source: OpenSM's document on routing, engine `updn`.
ghost use Rattle.std.specs.Prelude.{◌≡◌, ◌<◌, length, IfOk, OnOk};
ghost use Rattle.fab_model.specs.WellFormed.{IsFabric};
ghost use Rattle.fab_tables.specs.FixedEntries.{HasFixedEntries};
ghost use Rattle.fab_balance.specs.Choosing.{AreChosenAt, KeepsOtherSwitches};
ghost use Rattle.fab_updn.specs.UpDown.{IsUpDownChoice, AreUpDownTables};
ghost use Rattle.fab_updn.specs.Found.{AreAllCosts, HasNoMissing, costs_of};

use crate::cost_table::CostTable;
use crate::legal_ports::find_legal_ports;
use fab_balance::{pick, with_fixed_entries};
use fab_model::{Fabric, SwitchId};
use fab_tables::Tables;
use std::alloc::{AllocError, Global};

/// The up/down tables by the ranks and costs of a fabric, where each connected pair has a cost. The error is want of
/// memory.
pub(crate) fn up_down_tables(
    alloc: Global,
    fabric: &Fabric,
    ranks: &[u16],
    costs: &CostTable,
) -> Result<Tables, AllocError>
    requires ranks { length ranks.now ≡ length fabric.now.switches }
    requires costs { AreAllCosts fabric.now ranks.now costs.now }
    requires legal { HasNoMissing fabric.now costs.now }
    ensures { IfOk result (λ tables. AreUpDownTables fabric.now ranks.now tables) }
{
    let mut tables = with_fixed_entries(alloc, fabric)?;
    let mut eligible = Vec::with_capacity(alloc, 255)?;
    for s in 0..fabric.switches() {
        choose_balanced(
            fabric,
            ranks,
            costs,
            SwitchId(s),
            &mut tables,
            &mut eligible,
        )?;
    }
    Ok(tables)
}

/// Chooses the entries of one switch. The list is room for the eligible ports.
fn choose_balanced(
    fabric: &Fabric,
    ranks: &[u16],
    costs: &CostTable,
    s: SwitchId,
    tables: &mut Tables,
    eligible: &mut Vec<u8>,
) -> Result<(), AllocError>
    requires fabric { IsFabric fabric.now }
    requires ranks { length ranks.now ≡ length fabric.now.switches }
    requires costs { AreAllCosts fabric.now ranks.now costs.now }
    requires legal { HasNoMissing fabric.now costs.now }
    requires switch { s.0 < length fabric.now.switches }
    requires fixed { HasFixedEntries fabric.now tables.old }
    ensures fixed { OnOk result (HasFixedEntries fabric.now tables.new) }
    ensures chosen { OnOk result (AreChosenAt fabric.now tables.new (IsUpDownChoice fabric.now ranks.now (costs_of costs.now) tables.new) s.0) }
    ensures others { KeepsOtherSwitches s.0 tables.old tables.new }
{
    let mut loads = [0u32; 256];
    for lid in fabric.lids_in_use() {
        let place = fabric.place_of(*lid).unwrap();
        let toward = costs.to(place.switch);
        find_legal_ports(fabric, ranks, toward, s, eligible)?;
        if let Some(port) = pick(&loads, eligible) {
            tables.set(s, *lid, port);
        }
        if place.port > 0 {
            loads[tables.get(s, *lid) as usize] += 1;
        }
    }
    Ok(())
}
