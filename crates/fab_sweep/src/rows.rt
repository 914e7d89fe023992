//! What each single failure costs.
//!
//! Problem: a plan is in use, and any cable or switch may fail next. For each such failure the plan is repaired, and
//! the row says how many pairs of a switch and a LID are cut off, how many LIDs the repair keeps, and how many entries
//! and levels it touches. Definition: `failures` in `specs/Failures.antt` and `IsSweepRow` in `specs/Sweeps.antt`.
//!
//! Time: one repair for each failure, and a step for each switch and LID. Memory: that of one repair, which goes with
//! its failure, and a row for each failure.
ghost use Rattle.std.specs.Prelude.{◌≡◌, ◌<◌, ◌≤◌, ◌^◌, IfOk, None, length, position};
ghost use Rattle.fab_model.specs.WellFormed.{IsFabric};
ghost use Rattle.fab_model.specs.Without.{is_unknown};
ghost use Rattle.fab_tables.specs.Fit.{PlanFits};
ghost use Rattle.fab_sweep.specs.Sweeps.{IsSweepRow, AreSweepRows, AreRepairsCertified};
ghost use Rattle.fab_sweep.specs.declared.Failing.TheVariants.{Cables, Switches};

use crate::Failing;
use crate::costs::costs_of;
use crate::failures::{cable_of, cables_of};
use fab_model::{Cable, ChannelId, Fabric, SwitchId};
use fab_repair::{RepairFault, repair};
use fab_tables::{Components, Plan};
use std::alloc::{AllocError, Global};
use std::marker::Model;

/// What one failure costs.
#[derive(Clone, Copy, Debug, PartialEq, Eq, Drop)]
pub struct SweepRow {
    /// The tail of the lower of the two channels of the cable that fails, or the switch that fails.
    pub switch: SwitchId,
    /// The port there at which the cable is; 0 where the switch fails with all its cables.
    pub port: u8,
    /// The pairs of a switch and a LID connected before and not after.
    pub lost: u64,
    /// The LIDs that the repair keeps.
    pub kept: u32,
    /// The pairs of a switch and a LID whose entries differ.
    pub changed: u64,
    /// The pairs of a source and a LID connected to it afterwards whose levels differ. A plan without lanes has level 0.
    pub moved: u64,
}

/// A row for each failure, in the order of the failures; seen as their list.
#[derive(Drop)]
pub struct Swept {
    list: Vec<SweepRow>,
}

impl Model for Swept {
    ghost use Rattle.std.specs.Prelude.{List};
    ghost use Rattle.fab_sweep.specs.declared.rows.SweepRow.{SweepRow as Row};

    ghost Value = { List Row };

    ghost view = { λ s. s.list.items };
}

impl Swept {
    /// The rows, in the order of the failures.
    pub fn rows(&self) -> &[SweepRow]
        ensures { result.now ≡ self.now }
    {
        self.list.as_slice()
    }
}

/// Repairs a plan after each single failure, and says what each costs: under `Cables` one failure for each cable between
/// switches, by the lower of its two channels; under `Switches` one for each switch, with or without cables, by number.
/// The error is want of memory.
pub fn sweep(
    alloc: Global,
    fabric: &Fabric,
    plan: &Plan,
    lanes: u8,
    what: Failing,
) -> Result<Swept, AllocError>
    requires fits { PlanFits fabric.now plan.now }
    requires lanes { (0 < lanes) × (lanes ≤ 15) }
    ensures rows { IfOk result (λ swept. AreSweepRows fabric.now plan.now lanes what swept) }
    ensures certified { IfOk result (λ _. AreRepairsCertified fabric.now plan.now lanes what) }
{
    let before = Components::of(alloc, fabric)?;
    let list = match what {
        Failing::Cables => cable_rows(alloc, fabric, &before, plan, lanes)?,
        Failing::Switches => switch_rows(alloc, fabric, &before, plan, lanes)?,
    };
    Ok(Swept { list })
}

/// A row for each cable, by the lower of its two channels.
fn cable_rows(
    alloc: Global,
    fabric: &Fabric,
    before: &Components,
    plan: &Plan,
    lanes: u8,
) -> Result<Vec<SweepRow>, AllocError>
    requires before { before.now ≡ fabric.now }
    requires fits { PlanFits fabric.now plan.now }
    requires lanes { (0 < lanes) × (lanes ≤ 15) }
    ensures fabric { IfOk result (λ _. IsFabric fabric.now) }
    ensures rows { IfOk result (λ rows. AreSweepRows fabric.now plan.now lanes Cables rows.items) }
{
    let mut rows = Vec::new(alloc);
    for number in 0..fabric.channels() {
        let channel = ChannelId(number);
        if number <= fabric.reverse(channel).0 {
            let row = fabric.channel(channel);
            let cable = cable_of(fabric, row);
            rows.push(failure_row(
                alloc,
                fabric,
                before,
                plan,
                lanes,
                row.tail,
                row.port,
                &[cable],
            )?)?;
        }
    }
    Ok(rows)
}

/// A row for each switch, which fails with all its cables.
fn switch_rows(
    alloc: Global,
    fabric: &Fabric,
    before: &Components,
    plan: &Plan,
    lanes: u8,
) -> Result<Vec<SweepRow>, AllocError>
    requires before { before.now ≡ fabric.now }
    requires fits { PlanFits fabric.now plan.now }
    requires lanes { (0 < lanes) × (lanes ≤ 15) }
    ensures fabric { IfOk result (λ _. IsFabric fabric.now) }
    ensures rows { IfOk result (λ rows. AreSweepRows fabric.now plan.now lanes Switches rows.items) }
{
    let mut rows = Vec::new(alloc);
    for number in 0..fabric.switches() {
        let switch = SwitchId(number);
        let cables = cables_of(alloc, fabric, switch)?;
        rows.push(failure_row(alloc, fabric, before, plan, lanes, switch, 0, &cables)?)?;
    }
    Ok(rows)
}

/// The row of a failure, under this switch and port, of these cables.
fn failure_row(
    alloc: Global,
    fabric: &Fabric,
    before: &Components,
    plan: &Plan,
    lanes: u8,
    switch: SwitchId,
    port: u8,
    cables: &[Cable],
) -> Result<SweepRow, AllocError>
    requires fabric { IsFabric fabric.now }
    requires before { before.now ≡ fabric.now }
    requires fits { PlanFits fabric.now plan.now }
    requires lanes { (0 < lanes) × (lanes ≤ 15) }
    requires few { length cables.now < 2 ^ 32 }
    requires known { position (is_unknown fabric.now) cables.now ≡ None }
    ensures { IfOk result (IsSweepRow fabric.now plan.now lanes (record { switch = switch.0; port = port; cables = cables.now })) }
{
    let repaired = match repair(alloc, fabric, plan, cables, lanes) {
        Ok(repaired) => repaired,
        Err(RepairFault::Memory(refused)) => return Err(refused),
        Err(RepairFault::UnknownCable { .. }) => unreachable!(),
    };
    let after = Components::of(alloc, &repaired.fabric)?;
    let cost = costs_of(fabric, before, &after, plan, &repaired.plan);
    Ok(SweepRow {
        switch,
        port,
        lost: cost.lost,
        kept: repaired.kept.lids().len() as u32,
        changed: cost.changed,
        moved: cost.moved,
    })
}
