//! What a repair costs: the pairs of a switch and a LID that it loses, changes and moves, counted in one pass over both
//! plans. It takes a step for each pair, and no memory.
ghost use Rattle.std.specs.Prelude.{◌≡◌, ℕ, ◌<◌, ◌≤◌, Bool, not, ◌&&◌, if◌then◌else◌, Contains, IfSome, length};
ghost use Rattle.fab_model.specs.Topology.{lids_of, is_source};
ghost use Rattle.fab_model.specs.WellFormed.{IsFabric};
ghost use Rattle.fab_nue.specs.Kept.{HasSwitchesAndLids, old_level};
ghost use Rattle.fab_sweep.specs.Sweeps.{TellsConnected, is_lost, is_changed, is_moved, same_level, count_to, pairs_with};

use fab_model::{Fabric, Lid, SwitchId};
use fab_tables::{Components, Plan};

/// How many pairs of a switch and a LID a repair loses, changes and moves.
#[derive(Clone, Copy)]
pub(crate) struct Costs {
    pub lost: u64,
    pub changed: u64,
    pub moved: u64,
}

/// The costs of a repair. The components are those of the fabric before the failure and after it.
pub(crate) fn costs_of(
    fabric: &Fabric,
    before: &Components,
    after: &Components,
    plan: &Plan,
    repaired: &Plan,
) -> Costs
    requires before { before.now ≡ fabric.now }
    requires after { length after.now.switches ≡ length fabric.now.switches }
    requires plan { HasSwitchesAndLids fabric.now plan.now }
    requires repaired { HasSwitchesAndLids fabric.now repaired.now }
    ensures lost { (was is : ℕ → ℕ → Bool) → TellsConnected before.now was → TellsConnected after.now is → result.lost ≡ pairs_with fabric.now (is_lost fabric.now was is) }
    ensures changed { result.changed ≡ pairs_with fabric.now (is_changed plan.now.tables repaired.now.tables) }
    ensures moved { (is : ℕ → ℕ → Bool) → TellsConnected after.now is → result.moved ≡ pairs_with fabric.now (is_moved fabric.now is plan.now.lanes repaired.now.lanes) }
{
    let mut lost = 0;
    let mut changed = 0;
    let mut moved = 0;
    for lid in fabric.lids_in_use() {
        let more = costs_to(fabric, before, after, plan, repaired, *lid);
        lost += more.lost;
        changed += more.changed;
        moved += more.moved;
    }
    Costs {
        lost,
        changed,
        moved,
    }
}

/// The costs of a repair at the switches for one LID.
fn costs_to(
    fabric: &Fabric,
    before: &Components,
    after: &Components,
    plan: &Plan,
    repaired: &Plan,
    lid: Lid,
) -> Costs
    requires fabric { IsFabric fabric.now }
    requires in_use { Contains (lids_of fabric.now) lid.0 }
    requires before { before.now ≡ fabric.now }
    requires after { length after.now.switches ≡ length fabric.now.switches }
    requires plan { HasSwitchesAndLids fabric.now plan.now }
    requires repaired { HasSwitchesAndLids fabric.now repaired.now }
    ensures lost { (was is : ℕ → ℕ → Bool) → TellsConnected before.now was → TellsConnected after.now is → result.lost ≡ count_to fabric.now (is_lost fabric.now was is) lid.0 }
    ensures changed { result.changed ≡ count_to fabric.now (is_changed plan.now.tables repaired.now.tables) lid.0 }
    ensures moved { (is : ℕ → ℕ → Bool) → TellsConnected after.now is → result.moved ≡ count_to fabric.now (is_moved fabric.now is plan.now.lanes repaired.now.lanes) lid.0 }
    ensures few_lost { result.lost ≤ 2048 }
    ensures few_changed { result.changed ≤ 2048 }
    ensures few_moved { result.moved ≤ 2048 }
{
    let to = fabric.place_of(lid).unwrap().switch;
    let mut lost = 0;
    let mut changed = 0;
    let mut moved = 0;
    for index in 0..fabric.switches() {
        let s = SwitchId(index);
        lost += one_if(is_cut_off(before, after, s, to));
        changed += one_if(differs(plan, repaired, s, lid));
        moved += one_if(is_moved(fabric, after, plan, repaired, s, lid, to));
    }
    Costs {
        lost,
        changed,
        moved,
    }
}

/// The number to count where a test passes or not.
fn one_if(passes: bool) -> u64
    ensures { result ≡ (if passes then 1 else 0) }
{
    if passes { 1 } else { 0 }
}

/// Whether two switches were connected, and aren't any more.
fn is_cut_off(before: &Components, after: &Components, s: SwitchId, to: SwitchId) -> bool
    requires from { (s.0 < length before.now.switches) × (s.0 < length after.now.switches) }
    requires to { (to.0 < length before.now.switches) × (to.0 < length after.now.switches) }
    ensures { (was is : ℕ → ℕ → Bool) → TellsConnected before.now was → TellsConnected after.now is → result ≡ (was s.0 to.0 && not (is s.0 to.0)) }
{
    before.are_connected(s, to) && !after.are_connected(s, to)
}

/// Whether the entries of a switch for a LID differ.
fn differs(plan: &Plan, repaired: &Plan, s: SwitchId, lid: Lid) -> bool
    requires plan { s.0 < plan.now.tables.switches }
    requires repaired { s.0 < repaired.now.tables.switches }
    ensures { result ≡ is_changed plan.now.tables repaired.now.tables s.0 lid.0 }
{
    plan.tables.get(s, lid) != repaired.tables.get(s, lid)
}

/// Whether the levels differ of a source and a LID that is connected to it afterwards.
fn is_moved(
    fabric: &Fabric,
    after: &Components,
    plan: &Plan,
    repaired: &Plan,
    s: SwitchId,
    lid: Lid,
    to: SwitchId,
) -> bool
    requires source { s.0 < length fabric.now.switches }
    requires from { s.0 < length after.now.switches }
    requires to { to.0 < length after.now.switches }
    requires plan { IfSome plan.now.lanes (λ l. s.0 < l.switches) }
    requires repaired { IfSome repaired.now.lanes (λ l. s.0 < l.switches) }
    ensures { (is : ℕ → ℕ → Bool) → TellsConnected after.now is
        → result ≡ (is_source fabric.now s.0 && is s.0 to.0 && not (same_level (old_level plan.now.lanes s.0 lid.0) (old_level repaired.now.lanes s.0 lid.0))) }
{
    fabric.has_terminal(s)
        && after.are_connected(s, to)
        && level_in(plan, s, lid) != level_in(repaired, s, lid)
}

/// The level of a switch for a LID. A plan without lanes has level 0.
fn level_in(plan: &Plan, s: SwitchId, lid: Lid) -> Option<u8>
    requires { IfSome plan.now.lanes (λ l. s.0 < l.switches) }
    ensures { result ≡ old_level plan.now.lanes s.0 lid.0 }
{
    match &plan.lanes {
        Some(lanes) => lanes.level(s, lid),
        None => Some(0),
    }
}
