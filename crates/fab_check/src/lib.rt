//! The checker of plans: whether every route is delivered and the numbers of the virtual channels rise along
//! each, so that no packets wait for each other (Dally and Seitz), and if not, the first fault. It stands on
//! the fabric and the tables alone, and so shares nothing with the engines that make plans.
//!
//! For each LID each switch is stepped from once, and with lanes once more for each level in use; a start takes at
//! most one hop more, and two where pairs of ports have maps. Without such maps one start of a source is looked at,
//! and else that of each terminal.
#![tactic(auto)]

ghost use Rattle.std.specs.Prelude.{◌≡◌, ◌↔◌, IfOk, None};
ghost use Rattle.fab_tables.specs.Fit.{PlanFits};
ghost use Rattle.fab_tables.specs.Certified.{Reaches, IsCertified};
ghost use Rattle.fab_tables.specs.Verdicts.{IsVerdict};
ghost use Rattle.fab_check.specs.Free.{IsFreeOfDeadlock};

use fab_model::{Fabric, SwitchId};
use fab_tables::{
    Components, LaneFaults, Marks, Plan, Starts, Verdict, first_lane_fault, first_unreached,
};
use std::alloc::{AllocError, Global};
use std::marker::Model;

/// Checks plans of one fabric. It is seen as the fabric.
#[derive(Drop)]
pub struct Checker<'f> {
    fabric: &'f Fabric,
    components: Components<'f>,
    starts: Starts,
    // room for a mark at each switch: that its route to the LID under check is delivered
    delivered: Vec<Option<SwitchId>>,
    // room for a mark at each switch and level: that the hops behind are judged
    judged: Marks,
}

impl<'f> Model for Checker<'f> {
    ghost use Rattle.std.specs.Prelude.{◌≡◌, length};
    ghost use Rattle.fab_model.specs.Topology.{Topology};
    ghost use Rattle.fab_tables.specs.Starts.{AreAllStarts};
    ghost use Rattle.fab_tables.specs.Judged.{IsRoomFor};

    ghost Value = { Topology };

    ghost view = { λ c. c.fabric.now };

    ghost invariant = { λ c. (c.components ≡ c.fabric.now) × AreAllStarts c.fabric.now c.starts × (length c.delivered.items ≡ length c.fabric.now.switches) × IsRoomFor c.fabric.now c.judged };
}

impl<'f> Checker<'f> {
    /// A checker of plans for this fabric. It has all the memory that its checks need: some 32 bytes for each
    /// switch and 16 for each terminal.
    pub fn new(alloc: Global, fabric: &'f Fabric) -> Result<Checker<'f>, AllocError>
        ensures { IfOk result (λ c. c ≡ fabric.now) }
    {
        let components = Components::of(alloc, fabric)?;
        let starts = Starts::of(alloc, fabric)?;
        let delivered = vec![in alloc; None; fabric.switches() as usize]?;
        let judged = Marks::new(alloc, fabric)?;
        Ok(Checker {
            fabric,
            components,
            starts,
            delivered,
            judged,
        })
    }

    /// The verdict on a plan: its first fault, or that there is none. It takes no memory, and the time of a few
    /// hops for each LID, switch and level in use.
    ///
    /// First comes `Unreached`, by LID and then by switch connected to it, for a route that isn't delivered.
    /// A plan without lanes is then good: `Routes`. With lanes, LIDs and the sources connected to them are
    /// taken in order: `NoLevel`, and then for each terminal of the source by ascending port, hop by hop,
    /// `BadLane` for a lane that isn't below the lane count, `NoNumber`, and `NotRising` for a number that
    /// isn't above that of the hop before. Where none of these is met, the answer is `Lanes`.
    pub fn check(&mut self, plan: &Plan) -> Verdict
        requires { PlanFits self.old plan.now }
        ensures verdict { IsVerdict self.old plan.now.tables plan.now.lanes result }
        // Lanes is answered exactly of certified plans.
        ensures certified { (result ≡ Verdict.Lanes) ↔ IsCertified self.old plan.now }
        // Routes is answered exactly of plans without lanes whose routes all reach.
        ensures reaches { (result ≡ Verdict.Routes) ↔ ((plan.now.lanes ≡ None) × Reaches self.old plan.now.tables) }
        // Where it is Lanes, no packets wait for each other.
        ensures free { result ≡ Verdict.Lanes → IsFreeOfDeadlock self.old plan.now }
        ensures fabric { self.new ≡ self.old }
    {
        let tables = &plan.tables;
        let unreached = first_unreached(self.fabric, tables, &self.components, &mut self.delivered);
        match (unreached, &plan.lanes) {
            (Some(fault), _) => fault,
            (None, None) => Verdict::Routes,
            (None, Some(lanes)) => {
                first_lane_fault(
                    self.fabric,
                    tables,
                    lanes,
                    LaneFaults::Every,
                    &self.components,
                    &self.starts,
                    &mut self.judged,
                )
                .unwrap_or(Verdict::Lanes)
            }
        }
    }
}
