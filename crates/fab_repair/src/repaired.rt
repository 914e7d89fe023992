//! Plans repaired after cables failed.
//!
//! Problem: cables between switches failed while a plan was in use, and a plan for what is left should leave as it
//! is what can stay. Definition: the plan of Nue for the fabric without the failed cables, with the old plan as the one
//! that it keeps LIDs of. A LID is kept where its old routes still arrive, its old levels are lanes of the new plan on
//! which the old maps put them at every hop, and its old routes close no ring with the escape trees and the LIDs kept
//! before it; every other LID is laid anew.
//! So entries and levels of a kept LID stay as they were wherever it can be reached.
//!
//! Time and memory: those of making the fabric and its hop counts anew, and those of Nue on it.
//! Source: Nue is that of Domke, Hoefler and Matsuoka, "Routing on the Dependency Graph"; which LIDs are kept is this
//! project's own.
ghost use Rattle.std.specs.Prelude.{◌<◌, ◌≤◌, ◌^◌, length, Some, IfOk};
ghost use Rattle.fab_tables.specs.Fit.{PlanFits, IsTidy};
ghost use Rattle.fab_tables.specs.Certified.{IsCertified};
ghost use Rattle.fab_model.specs.Without.{taken_out};
ghost use Rattle.fab_nue.specs.NuePlan.{IsNuePlan};
ghost use Rattle.fab_nue.specs.Laws.{KeepsItself};
ghost use Rattle.fab_repair.specs.Repairs.{GivesFabric};

use crate::fault::RepairFault;
use fab_hops::Hops;
use fab_model::{Cable, Fabric};
use fab_nue::{LidList, nue};
use fab_tables::Plan;
use std::alloc::Global;

/// The fabric without the failed cables, its plan, and the LIDs that kept their old routes and levels.
#[derive(Drop)]
pub struct Repaired {
    /// The fabric without the failed cables.
    pub fabric: Fabric,
    /// Nue's plan for it.
    pub plan: Plan,
    /// The LIDs that were not laid anew, ascending.
    pub kept: LidList,
}

/// Repairs a plan after cables failed: the plan of Nue on so many lanes for the fabric without them, which keeps each
/// LID that can stay.
///
/// `UnknownCable` comes exactly where a cable isn't in the fabric, with the first such place of the list, from 0;
/// `Memory` may come in place of any answer. A cable is named by either of its ends, and may be named twice. A plan
/// that Nue or a repair made for what is left, on as many lanes, stays as it is, with every LID kept.
pub fn repair(
    alloc: Global,
    fabric: &Fabric,
    plan: &Plan,
    failed: &[Cable],
    lanes: u8,
) -> Result<Repaired, RepairFault>
    requires fits { PlanFits fabric.now plan.now }
    requires few { length failed.now < 2 ^ 32 }
    requires lanes { (0 < lanes) × (lanes ≤ 15) }
    ensures fabric { GivesFabric result (taken_out fabric.now failed.now) }
    ensures plan { IfOk result (λ repaired. IsNuePlan repaired.fabric lanes (Some plan.now) repaired.kept repaired.plan) }
    ensures certified { IfOk result (λ repaired. IsCertified repaired.fabric repaired.plan) }
    ensures fits { IfOk result (λ repaired. PlanFits repaired.fabric repaired.plan) }
    ensures tidy { IfOk result (λ repaired. IsTidy repaired.fabric repaired.plan) }
    // A plan that Nue or a repair made for the new fabric and this lane count stays as it is. Where no cable failed, the
    // new fabric is this one.
    ensures itself { IfOk result (λ repaired. KeepsItself repaired.fabric lanes (Some plan.now) repaired.kept repaired.plan) }
{
    let left = fabric.without(alloc, failed)?;
    let hops = Hops::of(alloc, &left)?;
    let laid = nue(alloc, &left, &hops, lanes, Some(plan))?;
    Ok(Repaired {
        fabric: left,
        plan: laid.plan,
        kept: laid.kept,
    })
}
