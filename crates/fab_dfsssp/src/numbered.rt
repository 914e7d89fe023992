//! The plan of an assignment without rings: the tables, the levels of the paths, and the numbers that certify them.
//!
//! Each lane keeps its dependencies to itself and closes none, so the certificate is always there (Dally and Seitz).
//! Time and memory are those of certifying a plan.
ghost use Rattle.std.specs.Prelude.{◌≡◌, ◌<◌, IfOk};
ghost use Rattle.fab_model.specs.WellFormed.{IsFabric};
ghost use Rattle.fab_tables.specs.Certified.{IsCertified};
ghost use Rattle.fab_tables.specs.Fit.{PlanFits, EntriesFit, IsTidy};
ghost use Rattle.fab_sssp.specs.LeastWeightTables.{AreLeastWeightTables};
ghost use Rattle.fab_dfsssp.specs.BrokenLanes.{AreBrokenLanes};
ghost use Rattle.fab_dfsssp.specs.DfssspPlans.{IsDfssspPlan};

use fab_certify::{Certified, certify};
use fab_model::Fabric;
use fab_tables::{Lanes, Plan, Tables};
use std::alloc::{AllocError, Global};

/// The plan of these tables and lanes, with the numbers of its certificate. The error is want of memory.
pub(crate) fn numbered_plan(
    alloc: Global,
    fabric: &Fabric,
    tables: Tables,
    lanes: Lanes,
) -> Result<Plan, AllocError>
    requires fabric { IsFabric fabric.now }
    requires tables { AreLeastWeightTables fabric.now tables }
    requires lanes { AreBrokenLanes fabric.now tables lanes.count lanes }
    ensures plan { IfOk result (λ plan. IsDfssspPlan fabric.now lanes.count plan) }
    ensures certified { IfOk result (λ plan. IsCertified fabric.now plan) }
    ensures fits { IfOk result (λ plan. PlanFits fabric.now plan) }
    ensures tidy { IfOk result (λ plan. IsTidy fabric.now plan) }
{
    let plan = Plan {
        tables,
        lanes: Some(lanes),
    };
    match certify(alloc, fabric, &plan)? {
        Certified::Numbers(plan) => Ok(plan),
        Certified::Refused(_) | Certified::RingUsed(_) => unreachable!(),
    }
}
