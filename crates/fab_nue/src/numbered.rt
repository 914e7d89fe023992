//! The plan of what is laid: the tables, the lanes with their levels, and the numbers that certify them.
//!
//! Each lane keeps its dependencies to itself and closes no walk of them, so the certificate is always there (Dally
//! and Seitz). Time and memory are those of certifying a plan.
ghost use Rattle.std.specs.Prelude.{◌≡◌, ◌<◌, ◌≤◌, Option, IfOk};
ghost use Rattle.fab_model.specs.WellFormed.{IsFabric};
ghost use Rattle.fab_tables.specs.declared.plan.Plan.{Plan as Plans};
ghost use Rattle.fab_tables.specs.Certified.{IsCertified};
ghost use Rattle.fab_tables.specs.Fit.{PlanFits, EntriesFit, IsTidy};
ghost use Rattle.fab_nue.specs.NuePlan.{IsNueLayout};
ghost use Rattle.fab_nue.specs.Laying.{IsUnnumbered};

use crate::laid::Laid;
use crate::lid_list::LidList;
use fab_certify::{Certified, certify};
use fab_depgraph::Layers;
use fab_model::Fabric;
use fab_tables::{Lanes, Plan, Tables};
use std::alloc::{AllocError, Global};

/// The plan of these tables and lanes, with the numbers of its certificate. The error is want of memory.
pub(crate) fn numbered_plan(
    alloc: Global,
    fabric: &Fabric,
    tables: Tables,
    lanes: Lanes,
    kept: LidList,
    used: Layers,
) -> Result<Laid, AllocError>
    requires fabric { IsFabric fabric.now }
    requires laid { (old : Option Plans) × IsUnnumbered fabric.now old kept tables lanes used }
    ensures plan { IfOk result (λ laid. (old : Option Plans) → IsUnnumbered fabric.now old kept tables lanes used →
        IsNueLayout fabric.now lanes.count old laid.kept laid.plan laid.used) }
    ensures certified { IfOk result (λ laid. IsCertified fabric.now laid.plan) }
    ensures fits { IfOk result (λ laid. PlanFits fabric.now laid.plan) }
    ensures tidy { IfOk result (λ laid. IsTidy fabric.now laid.plan) }
{
    let plan = Plan {
        tables,
        lanes: Some(lanes),
    };
    match certify(alloc, fabric, &plan)? {
        Certified::Numbers(plan) => Ok(Laid { plan, kept, used }),
        Certified::Refused(_) | Certified::RingUsed(_) => unreachable!(),
    }
}
