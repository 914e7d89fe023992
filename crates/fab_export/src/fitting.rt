//! Whether a part of a plan may be written: the first row that holds of a table of reasons against it.
//!
//! First comes the check of the plan, then what its tables need: a port GUID of its own for each LID, and routes that
//! path queries are answered for; and then what its levels need: one lane map for all switches, and spare levels. The
//! time is that of the check and of following each source's routes; the memory that of the check, or a port GUID for
//! each LID.
ghost use Rattle.std.specs.Prelude.{◌≡◌, IfOk, None, option_and_then};
ghost use Rattle.fab_tables.specs.declared.verdict.Verdict.{Verdict as Answer};
ghost use Rattle.fab_tables.specs.Certified.{Reaches};
ghost use Rattle.fab_tables.specs.Fit.{PlanFits};
ghost use Rattle.fab_export.specs.Unfits.{FindsUnfit, IsFirstUnfit, refused, no_lanes, unfit_after, lanes_unfit};

use crate::fault::Unfit;
use crate::part::Part;
use crate::reached::Reached;
use crate::unfit_guids::bad_port_guid;
use crate::unfit_lanes::unfit_lanes;
use crate::unfit_routes::too_far;
use fab_check::Checker;
use fab_model::Fabric;
use fab_tables::{Components, Plan, Verdict};
use std::alloc::{AllocError, Global};

/// Whether a part of a plan may be written, or the first reason against it. Only for plans without lanes
/// does it depend on the part: they have no levels.
pub fn check_fit(alloc: Global, fabric: &Fabric, plan: &Plan, part: Part) -> Result<(), Unfit>
    requires { PlanFits fabric.now plan.now }
    ensures { FindsUnfit fabric.now plan.now part result }
{
    match first_unfit(alloc, fabric, plan, part) {
        Ok(None) => Ok(()),
        Ok(Some(unfit)) => Err(unfit),
        Err(refused) => Err(Unfit::Memory(refused)),
    }
}

/// The first reason against a part.
fn first_unfit(
    alloc: Global,
    fabric: &Fabric,
    plan: &Plan,
    part: Part,
) -> Result<Option<Unfit>, AllocError>
    requires { PlanFits fabric.now plan.now }
    ensures { IfOk result (IsFirstUnfit fabric.now plan.now part) }
{
    let mut checker = Checker::new(alloc, fabric)?;
    let verdict = checker.check(plan);
    match refused(verdict) {
        Some(unfit) => Ok(Some(unfit)),
        None => unfit_of_good(alloc, fabric, plan, part),
    }
}

/// The verdict, where it is a fault.
fn refused(verdict: Verdict) -> Option<Unfit>
    ensures { result ≡ refused verdict }
{
    match verdict {
        Verdict::Routes | Verdict::Lanes => None,
        fault => Some(Unfit::Refused(fault)),
    }
}

/// The first reason against a part of a plan that the check lets through.
fn unfit_of_good(
    alloc: Global,
    fabric: &Fabric,
    plan: &Plan,
    part: Part,
) -> Result<Option<Unfit>, AllocError>
    requires fits { PlanFits fabric.now plan.now }
    requires reaches { Reaches fabric.now plan.now.tables }
    ensures { (verdict : Answer) → refused verdict ≡ None → IfOk result (λ found. found ≡ unfit_after verdict fabric.now plan.now part) }
{
    let guids = bad_port_guid(alloc, fabric)?;
    if guids.is_some() {
        return Ok(guids);
    }
    let components = Components::of(alloc, fabric)?;
    let reached = Reached::new(fabric, &plan.tables, &components);
    Ok(
        too_far(&reached)
            .or(unfit_levels(&reached, plan))
            .or(no_lanes(part, plan)),
    )
}

/// The first reason against the lanes, if the plan has some.
fn unfit_levels(reached: &Reached, plan: &Plan) -> Option<Unfit>
    requires { PlanFits reached.now.fabric plan.now }
    ensures { result ≡ option_and_then (lanes_unfit reached.now.fabric reached.now.entries) plan.now.lanes }
{
    match &plan.lanes {
        Some(lanes) => unfit_lanes(reached, lanes),
        None => None,
    }
}

/// Whether levels are asked of a plan without lanes.
fn no_lanes(part: Part, plan: &Plan) -> Option<Unfit>
    ensures { result ≡ no_lanes part plan.now.lanes }
{
    match (part, &plan.lanes) {
        (Part::Levels, None) => Some(Unfit::NoLanes),
        _ => None,
    }
}
