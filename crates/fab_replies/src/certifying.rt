//! Are the answers to packets in the order of a certificate too?
//!
//! A plan's certificate covers packets, each at the level that its source has for its LID. The answer to a packet
//! comes back at the same level, which need not be the one that the answering switch has for the asker: such an
//! answer may take virtual channels that no packet takes, or one after the other as no packet does. So the
//! dependencies of packets and of replies are taken together, and are numbered, or their first ring is told.
//!
//! Source: W. J. Dally and C. L. Seitz, "Deadlock-Free Message Routing in Multiprocessor Interconnection Networks",
//! IEEE Transactions on Computers 36 (1987); that a path is reversible, and that an answer keeps the service level of
//! what it answers, is InfiniBand's.
ghost use Rattle.std.specs.Prelude.{◌≡◌, ℕ, List, IfOk};
ghost use Rattle.fab_tables.specs.LaneTables.{LaneTables};
ghost use Rattle.fab_tables.specs.Fit.{PlanFits};
ghost use Rattle.fab_certify.specs.Numbered.{IsSound};
ghost use Rattle.fab_replies.specs.Answers.{IsAnswerTo, IsAnswerBy, HasGoodReplies};
ghost use Rattle.fab_replies.specs.Covered.{Covers};
ghost use Rattle.fab_replies.specs.Jointly.{AreJointly};
ghost use Rattle.fab_replies.specs.Ringed.{IsDeadlockedRing};

use crate::collecting::{Joint, collect};
use crate::reading::Reading;
use crate::replied::Replied;
use fab_certify::{Dependencies, lanes_read, refusal, set_numbers};
use fab_model::Fabric;
use fab_rings::{Numbering, levels_or_ring};
use fab_tables::{Components, Lanes, Plan, Starts};
use std::alloc::{AllocError, Global};

/// Numbers the virtual channels of a plan's packets and of the replies to them.
///
/// It takes the time and the memory of certifying the plan, and besides for each LID of a terminal a step for each LID
/// that is connected to it, and for each switch and level by which replies come. An error comes only for want of
/// memory.
pub fn replies(alloc: Global, fabric: &Fabric, plan: &Plan) -> Result<Replied, AllocError>
    requires { PlanFits fabric.now plan.now }
    ensures answer { IfOk result (λ answer. IsAnswerTo fabric.now plan.now answer) }
    // Numbers rise along all that packets and replies do, and none of these wait for each other.
    ensures covered { IfOk result (λ answer. (new : LaneTables) → answer ≡ Replied.Numbers new → Covers fabric.now plan.now new) }
    // Where there is a ring, some of them do.
    ensures deadlocked { IfOk result (λ answer. (ring : List ℕ) → answer ≡ Replied.RingReplies ring → IsDeadlockedRing fabric.now plan.now ring) }
{
    if let Some(fault) = refusal(alloc, fabric, plan)? {
        return Ok(Replied::Refused(fault));
    }
    let components = Components::of(alloc, fabric)?;
    let starts = Starts::of(alloc, fabric)?;
    let Plan { tables, lanes } = plan.copy(alloc)?;
    let lanes = lanes_read(alloc, fabric, lanes, &components, starts.all())?;
    let reading = Reading::new(fabric, &tables, &lanes, &components);
    match collect(alloc, &reading, starts.standing(&lanes))? {
        Joint::Dependencies(dependencies) => numbered(alloc, &reading, &dependencies),
        Joint::Fault(fault) => Ok(fault),
    }
}

/// The levels of the joint dependencies as numbers, or the first ring.
fn numbered(
    alloc: Global,
    reading: &Reading,
    dependencies: &Dependencies,
) -> Result<Replied, AllocError>
    requires sound { IsSound reading.now.fabric reading.now.entries reading.now.lanes }
    requires good { HasGoodReplies reading.now.fabric reading.now.entries reading.now.lanes }
    requires are { AreJointly reading.now.fabric reading.now.entries reading.now.lanes dependencies.now }
    ensures { IfOk result (IsAnswerBy reading.now.fabric reading.now.entries reading.now.lanes) }
{
    match levels_or_ring(alloc, dependencies.graph())? {
        Numbering::Levels(levels) => {
            let mut lanes = Lanes::new(alloc, reading.fabric(), reading.count())?;
            set_numbers(
                &mut lanes,
                reading.fabric().channels(),
                dependencies,
                &levels,
            );
            Ok(Replied::Numbers(lanes))
        }
        Numbering::Ring(ring) => Ok(Replied::RingReplies(ring)),
    }
}
