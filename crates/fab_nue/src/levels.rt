//! Lanes whose levels are those of Nue: a kept LID has the old ones, and any other its home lane, at each source that is
//! connected to it.
//!
//! Time: a step for each LID and switch. Memory: for each switch and LID, and for each channel. Source: the service
//! levels (SL) of InfiniBand.
ghost use Rattle.std.specs.Prelude.{◌≡◌, ◌<◌, ◌≤◌, IfOk, IfSome, Contains, length, option_copied};
ghost use Rattle.fab_model.specs.Topology.{lids_of};
ghost use Rattle.fab_model.specs.WellFormed.{IsFabric};
ghost use Rattle.fab_tables.specs.Fit.{LanesFit};
ghost use Rattle.fab_tables.specs.LaneTables.{HasLanePerLevel};
ghost use Rattle.fab_certify.specs.EnginePlans.{HasLevels};
ghost use Rattle.fab_nue.specs.Kept.{HasSwitchesAndLids};
ghost use Rattle.fab_nue.specs.NuePlan.{IsNueLevel};
ghost use Rattle.fab_nue.specs.Levels.{level_given, AreLevelsLow};

use crate::home_lanes::home;
use crate::lid_list::LidList;
use crate::old_levels::old_level;
use fab_certify::engine_lanes;
use fab_model::{Fabric, Lid, SwitchId};
use fab_tables::{Components, Lanes, Plan};
use std::alloc::{AllocError, Global};

/// So many lanes with the engines' maps and the levels of Nue. The error is want of memory.
pub(crate) fn nue_lanes(
    alloc: Global,
    fabric: &Fabric,
    components: &Components,
    old: Option<&Plan>,
    kept: &LidList,
    count: u8,
) -> Result<Lanes, AllocError>
    requires count { (0 < count) × (count ≤ 15) }
    requires components { components.now ≡ fabric.now }
    requires old { IfSome old (λ plan. HasSwitchesAndLids fabric.now plan.now) }
    requires low { AreLevelsLow fabric.now count (option_copied old) kept.now }
    ensures fits { IfOk result (λ lanes. LanesFit fabric.now lanes) }
    ensures count { IfOk result (λ lanes. lanes.count ≡ count) }
    ensures maps { IfOk result (λ lanes. HasLanePerLevel lanes) }
    ensures levels { IfOk result (λ lanes. HasLevels fabric.now lanes (λ s lid n. IsNueLevel fabric.now count (option_copied old.entry) kept.now s lid n)) }
{
    let mut lanes = engine_lanes(alloc, fabric, count)?;
    for lid in fabric.lids_in_use() {
        let place = fabric.place_of(*lid).unwrap();
        for s in 0..fabric.switches() {
            let switch = SwitchId(s);
            if fabric.has_terminal(switch) && components.are_connected(switch, place.switch) {
                let level = level_for(fabric, old, kept, switch, *lid, count);
                lanes.set_level(switch, *lid, level);
            }
        }
    }
    Ok(lanes)
}

/// The level of a source for a LID: the old one where the LID is kept, else its home lane.
fn level_for(
    fabric: &Fabric,
    old: Option<&Plan>,
    kept: &LidList,
    s: SwitchId,
    lid: Lid,
    count: u8,
) -> Option<u8>
    requires old { IfSome old (λ plan. HasSwitchesAndLids fabric.now plan.now) }
    requires s { s.0 < length fabric.now.switches }
    requires in_use { Contains (lids_of fabric.now) lid.0 }
    requires count { (0 < count) × (count ≤ 15) }
    ensures { result ≡ level_given fabric.now count (option_copied old.entry) kept.now s.0 lid.0 }
{
    match old {
        Some(plan) if kept.contains(lid) => old_level(fabric, plan, s, lid),
        _ => Some(home(fabric, lid, count)),
    }
}
