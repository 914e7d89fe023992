//! The plan of layers: DOR's tables, the layers as levels, and the numbers that certify them.
//!
//! Each lane keeps its dependencies to itself and closes no walk of them, so the certificate is always there (Dally
//! and Seitz). Time and memory are those of certifying a plan.
ghost use Rattle.std.specs.Prelude.{◌≡◌, ◌<◌, IfOk};
ghost use Rattle.fab_model.specs.WellFormed.{IsFabric};
ghost use Rattle.fab_tables.specs.Certified.{IsCertified};
ghost use Rattle.fab_tables.specs.Fit.{PlanFits, EntriesFit, IsTidy};
ghost use Rattle.fab_balance.specs.MinHop.{AreDorTables};
ghost use Rattle.fab_lash.specs.Layered.{IsLayeredPlan};
ghost use Rattle.fab_lash.specs.LayeredLanes.{AreLayeredLanes};

use crate::layered::Layered;
use fab_certify::{Certified, certify};
use fab_depgraph::Layers;
use fab_model::Fabric;
use fab_tables::{Lanes, Plan, Tables};
use std::alloc::{AllocError, Global};

/// The plan of these tables and lanes, with the numbers of its certificate. The error is want of memory.
pub(crate) fn numbered_plan(
    alloc: Global,
    fabric: &Fabric,
    tables: Tables,
    lanes: Lanes,
    used: Layers,
) -> Result<Layered, AllocError>
    requires fabric { IsFabric fabric.now }
    requires tables { AreDorTables fabric.now tables }
    requires lanes { AreLayeredLanes fabric.now tables lanes used }
    ensures plan { IfOk result (λ layered. IsLayeredPlan fabric.now lanes.count layered.plan layered.used) }
    ensures certified { IfOk result (λ layered. IsCertified fabric.now layered.plan) }
    ensures fits { IfOk result (λ layered. PlanFits fabric.now layered.plan) }
    ensures tidy { IfOk result (λ layered. IsTidy fabric.now layered.plan) }
{
    let plan = Plan {
        tables,
        lanes: Some(lanes),
    };
    match certify(alloc, fabric, &plan)? {
        Certified::Numbers(plan) => Ok(Layered { plan, used }),
        Certified::Refused(_) | Certified::RingUsed(_) => unreachable!(),
    }
}
