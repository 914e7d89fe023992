//! Draining a load: one move after the other, always that of the packet on the least virtual channel, until none may
//! move. Where packets are left then, each waits for another one, and a walk along those that are awaited leads to a
//! ring.
//!
//! A packet is looked at when it comes to a virtual channel, and again when the one that it awaits is left. Time: a
//! search for a packet's next hop and the logarithm of the packets, for each such look; memory: a copy of the load,
//! and some bytes for each virtual channel.
ghost use Rattle.std.specs.Prelude.{◌≡◌, ℕ, ◌+◌, ◌<◌, ◌≤◌, ◌∷◌, All, length, IfOk, OnOk, OnErr, MatchBool};
ghost use Rattle.fab_graph.specs.Least.{IsLeast};
ghost use Rattle.fab_model.specs.Topology.{Topology};
ghost use Rattle.fab_tables.specs.declared.plan.Plan.{Plan as Planned};
ghost use Rattle.fab_tables.specs.Fit.{PlanFits};
ghost use Rattle.fab_certify.specs.Certificate.{IsSoundPlan};
ghost use Rattle.fab_drain.specs.Loads.{IsLoad, packet_count, hops_left};
ghost use Rattle.fab_drain.specs.Drains.{Drains, IsStill, IsTakenNumber, IsWaitingRing, EndsAs};
ghost use Rattle.fab_drain.specs.Turns.{AreTurns, IsMoveByRule};
ghost use Rattle.fab_drain.specs.Laws.{CertifiedDrains};

use crate::packet::Moved;
use crate::state::{Drained, State};
use crate::turns::Turns;
use fab_certify::{Graph, Ring, first_ring};
use fab_model::Fabric;
use fab_tables::Plan;
use std::alloc::{AllocError, Global};

impl State {
    /// Drains the load: of the packets that may move, the one on the least virtual channel makes its move, until none
    /// may. An error comes only for want of memory, and leaves the load as it was.
    pub fn drain(
        &mut self,
        alloc: Global,
        fabric: &Fabric,
        plan: &Plan,
    ) -> Result<Drained, AllocError>
        requires fits { PlanFits fabric.now plan.now }
        requires admitted { IsSoundPlan fabric.now plan.now }
        requires load { IsLoad fabric.now plan.now self.old }
        ensures ends { IfOk result (λ drained. EndsAs fabric.now plan.now self.old self.new drained) }
        // Without a certificate too, a load that ends empty has made a move for each remaining hop.
        ensures hops { IfOk result (λ drained. (moves : ℕ) → drained ≡ Drained.Empty moves → moves ≡ hops_left self.old) }
        // On a certified plan each load ends empty.
        ensures certified { IfOk result (λ drained. CertifiedDrains fabric.now plan.now self.old drained) }
        ensures load { IsLoad fabric.now plan.now self.new }
        ensures err { OnErr result (self.new ≡ self.old) }
    {
        let mut state = self.copy(alloc)?;
        let moves = state.move_all(alloc, fabric, plan)?;
        let drained = if state.packets() == 0 {
            Drained::Empty { moves }
        } else {
            let ring = state.waiting_ring(alloc, fabric, plan)?;
            Drained::Waiting { moves, ring }
        };
        *self = state;
        Ok(drained)
    }

    /// Moves packets by the rule until none may move, and counts the moves.
    fn move_all(&mut self, alloc: Global, fabric: &Fabric, plan: &Plan) -> Result<u64, AllocError>
        requires fits { PlanFits fabric.now plan.now }
        requires admitted { IsSoundPlan fabric.now plan.now }
        requires load { IsLoad fabric.now plan.now self.old }
        ensures moves { IfOk result (λ moves. Drains fabric.now plan.now moves self.old self.new) }
        ensures still { OnOk result (IsStill fabric.now plan.now self.new) }
    {
        let mut turns = self.all_ready(alloc)?;
        let mut moves = 0;
        while self.move_next(fabric, plan, &mut turns)? {
            moves += 1;
        }
        Ok(moves)
    }

    /// All packets are ready for a turn.
    fn all_ready(&self, alloc: Global) -> Result<Turns, AllocError>
        ensures { IfOk result (λ turns. (t : Topology) (p : Planned) → AreTurns t p self.now turns.ready.keys turns.waiting) }
    {
        let count = self.cells.len() as u32;
        let mut turns = Turns::new(alloc, count)?;
        for number in 0..count {
            if self.cells[number as usize].is_some() {
                turns.ready.insert(number)?;
            }
        }
        Ok(turns)
    }

    /// Makes the next move by the rule. It says whether there was one.
    fn move_next(
        &mut self,
        fabric: &Fabric,
        plan: &Plan,
        turns: &mut Turns,
    ) -> Result<bool, AllocError>
        requires fits { PlanFits fabric.now plan.now }
        requires admitted { IsSoundPlan fabric.now plan.now }
        requires load { IsLoad fabric.now plan.now self.old }
        requires turns { AreTurns fabric.now plan.now self.old turns.old.ready.keys turns.old.waiting }
        ensures moved { IfOk result (λ moved. MatchBool moved (IsMoveByRule fabric.now plan.now self.old self.new) (IsStill fabric.now plan.now self.old × (self.new ≡ self.old))) }
        ensures turns { OnOk result (AreTurns fabric.now plan.now self.new turns.new.ready.keys turns.new.waiting) }
    {
        while let Some(number) = turns.take_first() {
            if self.take_turn(fabric, plan, number, turns)? {
                return Ok(true);
            }
        }
        Ok(false)
    }

    /// The packet of a number, the least of those that are ready, has its turn: it moves, or it waits. It says whether
    /// it moved.
    fn take_turn(
        &mut self,
        fabric: &Fabric,
        plan: &Plan,
        number: u32,
        turns: &mut Turns,
    ) -> Result<bool, AllocError>
        requires fits { PlanFits fabric.now plan.now }
        requires admitted { IsSoundPlan fabric.now plan.now }
        requires load { IsLoad fabric.now plan.now self.old }
        requires turns { AreTurns fabric.now plan.now self.old (number ∷ turns.old.ready.keys) turns.old.waiting }
        requires least { All (λ other. number < other) turns.old.ready.keys }
        ensures moved { IfOk result (λ moved. MatchBool moved (IsMoveByRule fabric.now plan.now self.old self.new) ((self.new ≡ self.old) × (turns.new.ready.keys ≡ turns.old.ready.keys))) }
        ensures turns { OnOk result (AreTurns fabric.now plan.now self.new turns.new.ready.keys turns.new.waiting) }
    {
        let at = self.channel_of(number);
        let next = self.next_of(fabric, plan, at);
        match self.advance_to(fabric, plan, at, next) {
            Moved::Nothing => Ok(false),
            Moved::Waits => {
                let awaited = self.number_of(next.unwrap());
                turns.waiting.push(awaited, number)?;
                Ok(false)
            }
            Moved::Went => {
                let reached = self.number_of(next.unwrap());
                turns.ready.insert(reached)?;
                turns.wake(number)?;
                Ok(true)
            }
            Moved::Left => {
                turns.wake(number)?;
                Ok(true)
            }
        }
    }

    /// The ring of packets that wait, to which the packet on the least virtual channel leads. A walk that goes on as
    /// often as there are virtual channels comes to the ring and around it.
    fn waiting_ring(&self, alloc: Global, fabric: &Fabric, plan: &Plan) -> Result<Ring, AllocError>
        requires fits { PlanFits fabric.now plan.now }
        requires admitted { IsSoundPlan fabric.now plan.now }
        requires load { IsLoad fabric.now plan.now self.now }
        requires still { IsStill fabric.now plan.now self.now }
        requires some { 0 < packet_count self.now }
        ensures { IfOk result (IsWaitingRing fabric.now plan.now self.now) }
    {
        let count = self.cells.len() as u32;
        let mut walk = Graph::new(alloc, count)?;
        let mut number = self.first_taken();
        for _ in 0..count {
            let at = self.channel_of(number);
            let awaited = self.next_of(fabric, plan, at).unwrap();
            let next = self.number_of(awaited);
            walk.push(number, next)?;
            number = next;
        }
        Ok(first_ring(alloc, &walk)?.unwrap())
    }

    /// The number of the least virtual channel on which a packet stands.
    fn first_taken(&self) -> u32
        requires { 0 < packet_count self.now }
        ensures { IsLeast (IsTakenNumber self.now) result }
    {
        let mut number = 0;
        while self.cells[number as usize].is_none() {
            number += 1;
        }
        number
    }
}
