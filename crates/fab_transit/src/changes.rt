//! May the tables of a fabric be changed from an old plan to a new one under traffic?
//!
//! While the tables change, a packet meets at each switch the entry of either plan, and the lane map of either.
//! Its walk is a mixed one. Where each mixed walk has levels, entries and lanes by which it goes on until it is
//! delivered, and numbers rise along all of them, no packets wait for each other in a ring (Dally and Seitz), and
//! none goes round for ever. Else the answer is the first fault, or the first ring of the mixed dependencies.
ghost use Rattle.std.specs.Prelude.{◌≡◌, IfOk};
ghost use Rattle.fab_tables.specs.LaneTables.{LaneTables};
ghost use Rattle.fab_tables.specs.Fit.{PlanFits};
ghost use Rattle.fab_tables.specs.Starts.{AreStarts};
ghost use Rattle.fab_transit.specs.Answers.{IsAnswerTo, HasNoFault};
ghost use Rattle.fab_transit.specs.Walking.{AreDependencies};
ghost use Rattle.fab_transit.specs.Standing.{AreStanding};
ghost use Rattle.fab_transit.specs.Safe.{IsSafe};

use crate::levels::first_missing_level;
use crate::mixed::Mixed;
use crate::plans::Plans;
use crate::walks::find_walks;
use fab_certify::{Dependencies, set_numbers};
use fab_model::Fabric;
use fab_rings::{Numbering, levels_or_ring};
use fab_tables::{Components, Lanes, Plan, Start, starts_of};
use std::alloc::{AllocError, Global};

/// Looks at a change of the tables from an old plan to a new one while packets are under way.
///
/// For each LID it takes a step for each source, or each terminal where a plan has maps of pairs of ports, and for
/// each level and each virtual channel that packets of this level take; then linear time in the virtual channels and
/// their dependencies. It takes memory for each virtual channel and level, and for each dependency. An error comes
/// only for want of memory.
pub fn transit(alloc: Global, fabric: &Fabric, old: &Plan, new: &Plan) -> Result<Mixed, AllocError>
    requires old { PlanFits fabric.now old.now }
    requires new { PlanFits fabric.now new.now }
    ensures answer { IfOk result (λ mixed. IsAnswerTo fabric.now (record { before = old.now; after = new.now }) mixed) }
    // With numbers, the change is safe under traffic.
    ensures safe { IfOk result (λ mixed. (l : LaneTables) → mixed ≡ Mixed.Numbers l → IsSafe fabric.now (record { before = old.now; after = new.now }) l) }
{
    let plans = Plans::new(fabric, old, new);
    let components = Components::of(alloc, fabric)?;
    let mut starts = starts_of(alloc, fabric)?;
    keep_standing(&plans, &mut starts);
    let missing = first_missing_level(&plans, &components, &starts);
    if let Some(fault) = missing {
        return Ok(fault);
    }
    let walks = find_walks(alloc, &plans, &components, &starts)?;
    match walks.fault {
        Some(fault) => Ok(fault.answer()),
        None => numbered(alloc, &plans, &walks.dependencies),
    }
}

/// Without maps of pairs of ports all starts of a source are alike, and only the first is kept.
fn keep_standing(plans: &Plans, starts: &mut Vec<Start>)
    requires { AreStarts plans.now.fabric starts.old.items }
    ensures { AreStanding plans.now.fabric plans.now.change starts.new.items }
{
    if !plans.have_pairs() {
        starts.dedup_by_key(|start| start.switch);
    }
}

/// The levels of the dependencies as numbers, or the first ring.
fn numbered(alloc: Global, plans: &Plans, dependencies: &Dependencies) -> Result<Mixed, AllocError>
    requires none { HasNoFault plans.now.fabric plans.now.change }
    requires are { AreDependencies plans.now.fabric plans.now.change dependencies.now }
    ensures { IfOk result (IsAnswerTo plans.now.fabric plans.now.change) }
{
    match levels_or_ring(alloc, dependencies.graph())? {
        Numbering::Levels(levels) => {
            let mut lanes = Lanes::new(alloc, plans.fabric(), plans.bound())?;
            set_numbers(&mut lanes, plans.fabric().channels(), dependencies, &levels);
            Ok(Mixed::Numbers(lanes))
        }
        Numbering::Ring(ring) => Ok(Mixed::RingMixed(ring)),
    }
}
