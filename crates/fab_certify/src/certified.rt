//! Certifying a plan: whether its routes are delivered and free of deadlock, and the numbers that show it.
//!
//! A virtual channel depends on another where packets that hold the one wait for the other. By Dally and Seitz no
//! packets wait in a ring where the dependencies close none. So the plan is refused by its first fault that no
//! numbers can mend, or by the first ring of its dependencies; else the levels of the dependencies are its
//! numbers, and they rise along each route.
ghost use Rattle.std.specs.Prelude.{◌≡◌, IfOk, MatchOption};
ghost use Rattle.fab_tables.specs.declared.plan.Plan.{Plan as Planned};
ghost use Rattle.fab_tables.specs.Fit.{EntriesFit, LanesFit, PlanFits, IsTidy};
ghost use Rattle.fab_tables.specs.Dependencies.{AreReadLanes};
ghost use Rattle.fab_tables.specs.Verdicts.{IsRefusal};
ghost use Rattle.fab_tables.specs.Certified.{IsCertified};
ghost use Rattle.fab_tables.specs.Starts.{AreStarts, AreAllStarts};
ghost use Rattle.fab_tables.specs.Judged.{IsRoomFor};
ghost use Rattle.fab_certify.specs.Numbered.{IsSound};
ghost use Rattle.fab_certify.specs.Certificate.{IsCertificate, IsCertificateBy, IsSoundPlan, HasNoPair, IsPlainCertificate};

use crate::collecting::collect;
use crate::numbers::set_numbers;
use crate::one_lane::one_lane;
use fab_model::Fabric;
use fab_rings::{Numbering, Ring, levels_or_ring};
use fab_tables::{
    Components, LaneFaults, Lanes, Marks, Plan, Start, Starts, Tables, Verdict, first_lane_fault,
    first_unreached,
};
use std::alloc::{AllocError, Global};

/// What certifying a plan answers.
#[derive(Drop)]
pub enum Certified {
    /// The plan with the levels of its dependencies as numbers.
    Numbers(Plan),
    /// The first fault that no numbers can mend.
    Refused(Verdict),
    /// The first ring of the dependencies. The number of a virtual channel is its channel times
    /// the lane count plus its lane.
    RingUsed(Ring),
}

/// Numbers a plan. A plan without lanes is taken with one lane and level 0.
///
/// For each LID it takes some steps for each switch and level in use and for each terminal, and then linear time
/// in the virtual channels and their dependencies. It takes memory for each switch and LID, for each channel and
/// lane, and for each dependency. An error comes only for want of memory.
pub fn certify(alloc: Global, fabric: &Fabric, plan: &Plan) -> Result<Certified, AllocError>
    requires { PlanFits fabric.now plan.now }
    ensures answer { IfOk result (λ answer. IsCertificate fabric.now plan.now answer) }
    // Without maps of pairs, all is said of sources and LIDs.
    ensures plain { IfOk result (λ answer. HasNoPair plan.now → IsPlainCertificate fabric.now plan.now answer) }
    // What is numbered is certified, and fits.
    ensures certified { IfOk result (λ answer. (new : Planned) → answer ≡ Certified.Numbers new → IsCertified fabric.now new) }
    ensures fits { IfOk result (λ answer. (new : Planned) → answer ≡ Certified.Numbers new → PlanFits fabric.now new) }
    ensures tidy { IfOk result (λ answer. (new : Planned) → answer ≡ Certified.Numbers new → IsTidy fabric.now plan.now → IsTidy fabric.now new) }
{
    let components = Components::of(alloc, fabric)?;
    let starts = Starts::of(alloc, fabric)?;
    let mut marks = Marks::new(alloc, fabric)?;
    let Plan { tables, lanes } = plan.copy(alloc)?;
    let lanes = lanes_read(alloc, fabric, lanes, &components, starts.all())?;
    let fault = first_fault(
        alloc,
        fabric,
        &tables,
        &lanes,
        &components,
        &starts,
        &mut marks,
    )?;
    if let Some(fault) = fault {
        return Ok(Certified::Refused(fault));
    }
    numbered(
        alloc,
        fabric,
        tables,
        lanes,
        &components,
        &starts,
        &mut marks,
    )
}

/// The first fault of a plan that no numbers can mend. It takes the time of certifying the plan without its
/// dependencies. An error comes only for want of memory.
pub fn refusal(alloc: Global, fabric: &Fabric, plan: &Plan) -> Result<Option<Verdict>, AllocError>
    requires { PlanFits fabric.now plan.now }
    ensures { IfOk result (λ fault. MatchOption fault (IsSoundPlan fabric.now plan.now) (λ verdict. IsCertificate fabric.now plan.now (Certified.Refused verdict))) }
{
    let components = Components::of(alloc, fabric)?;
    let starts = Starts::of(alloc, fabric)?;
    let mut marks = Marks::new(alloc, fabric)?;
    let Plan { tables, lanes } = plan.copy(alloc)?;
    let lanes = lanes_read(alloc, fabric, lanes, &components, starts.all())?;
    first_fault(
        alloc,
        fabric,
        &tables,
        &lanes,
        &components,
        &starts,
        &mut marks,
    )
}

/// The lanes with which a plan is read: its own, or where it has none one lane, with level 0 for each source and each
/// LID connected to it. An error comes only for want of memory.
pub fn lanes_read(
    alloc: Global,
    fabric: &Fabric,
    lanes: Option<Lanes>,
    components: &Components,
    starts: &[Start],
) -> Result<Lanes, AllocError>
    requires components { components.now ≡ fabric.now }
    requires starts { AreStarts fabric.now starts.now }
    ensures { IfOk result (AreReadLanes fabric.now lanes) }
{
    match lanes {
        Some(lanes) => Ok(lanes),
        None => one_lane(alloc, fabric, components, starts),
    }
}

/// The first fault that no numbers can mend.
fn first_fault(
    alloc: Global,
    fabric: &Fabric,
    tables: &Tables,
    lanes: &Lanes,
    components: &Components,
    starts: &Starts,
    marks: &mut Marks,
) -> Result<Option<Verdict>, AllocError>
    requires tables { EntriesFit fabric.now tables.now }
    requires lanes { LanesFit fabric.now lanes.now }
    requires components { components.now ≡ fabric.now }
    requires starts { AreAllStarts fabric.now starts.now }
    requires room { IsRoomFor fabric.now marks.old }
    ensures fault { IfOk result (λ fault. MatchOption fault (IsSound fabric.now tables.now lanes.now) (IsRefusal fabric.now tables.now lanes.now)) }
    ensures room { IsRoomFor fabric.now marks.new }
{
    let mut delivered = vec![in alloc; None; fabric.switches() as usize]?;
    let unreached = first_unreached(fabric, tables, components, &mut delivered);
    if unreached.is_some() {
        return Ok(unreached);
    }
    let faults = LaneFaults::Structural;
    Ok(first_lane_fault(fabric, tables, lanes, faults, components, starts, marks))
}

/// The numbered plan, or the first ring of its dependencies.
fn numbered(
    alloc: Global,
    fabric: &Fabric,
    tables: Tables,
    mut lanes: Lanes,
    components: &Components,
    starts: &Starts,
    marks: &mut Marks,
) -> Result<Certified, AllocError>
    requires tables { EntriesFit fabric.now tables }
    requires lanes { LanesFit fabric.now lanes }
    requires components { components.now ≡ fabric.now }
    requires starts { AreAllStarts fabric.now starts.now }
    requires room { IsRoomFor fabric.now marks.old }
    requires sound { IsSound fabric.now tables lanes }
    ensures { IfOk result (IsCertificateBy fabric.now tables lanes) }
{
    let dependencies = collect(alloc, fabric, &tables, &lanes, components, starts, marks)?;
    match levels_or_ring(alloc, dependencies.graph())? {
        Numbering::Levels(levels) => {
            set_numbers(&mut lanes, fabric.channels(), &dependencies, &levels);
            Ok(Certified::Numbers(Plan {
                tables,
                lanes: Some(lanes),
            }))
        }
        Numbering::Ring(ring) => Ok(Certified::RingUsed(ring)),
    }
}
