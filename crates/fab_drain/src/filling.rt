//! Filling a fabric: a packet on each virtual channel that some route uses. Packets are offered by LID, source, the
//! terminal's port and position; a virtual channel keeps the first one that goes further, and until that comes the
//! first one.
//!
//! It takes the time of a look for faults, and two steps for each hop of the routes of all switches that have a terminal
//! to all LIDs, of all terminals where pairs of ports have maps; memory for a copy of the plan, and some 20 bytes for each
//! channel and lane.
ghost use Rattle.std.specs.Prelude.{◌≡◌, suc, ◌*◌, ◌<◌, ◌↔◌, [], ◌∷◌, length, IfOk, IsTrue, None, replicate};
ghost use Rattle.fab_model.specs.Connected.{IsConnectedTo};
ghost use Rattle.fab_tables.specs.Fit.{PlanFits};
ghost use Rattle.fab_tables.specs.Reading.{count_read};
ghost use Rattle.fab_tables.specs.Starts.{AreStarts, IsOfTerminal};
ghost use Rattle.fab_certify.specs.Certificate.{IsSoundPlan};
ghost use Rattle.fab_drain.specs.Loads.{IsPlace};
ghost use Rattle.fab_drain.specs.Fills.{IsFilling, IsFilled};
ghost use Rattle.fab_drain.specs.Offers.{offered_at, AreAlike, IsFilledBefore, before_start, behind_start};

use crate::packet::{Loaded, Packet};
use crate::packet_hops::{hop_count, packet_hops};
use crate::state::{Filled, State};
use fab_certify::refusal;
use fab_model::{Fabric, Lid};
use fab_tables::{Components, Plan, Start, VirtualChannel, starts_of};
use std::alloc::{AllocError, Global};

/// Puts a packet on each virtual channel that some route uses. An error comes only for want of memory.
pub fn fill(alloc: Global, fabric: &Fabric, plan: &Plan) -> Result<Filled, AllocError>
    requires { PlanFits fabric.now plan.now }
    ensures { IfOk result (λ filled. IsFilled fabric.now plan.now filled) }
{
    if let Some(fault) = refusal(alloc, fabric, plan)? {
        return Ok(Filled::Refused(fault));
    }
    let state = filled(alloc, fabric, plan)?;
    Ok(Filled::Full(state))
}

/// The load that fills a fabric.
fn filled(alloc: Global, fabric: &Fabric, plan: &Plan) -> Result<State, AllocError>
    requires fits { PlanFits fabric.now plan.now }
    requires admitted { IsSoundPlan fabric.now plan.now }
    ensures { IfOk result (IsFilling fabric.now plan.now) }
{
    let components = Components::of(alloc, fabric)?;
    let starts = starts_of(alloc, fabric)?;
    let mut state = State::new(alloc, fabric, plan)?;
    for lid in fabric.lids_in_use() {
        state.offer_to(fabric, plan, *lid, &components, &starts);
    }
    Ok(state)
}

/// Whether packets of all terminals of a switch take the same virtual channels to a LID: no pair of ports has a map.
/// Those of the first terminal stand for all then.
fn are_alike(plan: &Plan) -> bool
    ensures { IsTrue result ↔ AreAlike plan.now }
{
    match &plan.lanes {
        Some(lanes) => lanes.pairs() == 0,
        None => true,
    }
}

impl State {
    /// The load of a plan that has no packet.
    fn new(alloc: Global, fabric: &Fabric, plan: &Plan) -> Result<State, AllocError>
        requires { PlanFits fabric.now plan.now }
        ensures count { IfOk result (λ state. state.count ≡ count_read plan.now.lanes) }
        ensures cells { IfOk result (λ state. state.cells ≡ replicate (length fabric.now.channels * state.count) None) }
    {
        let lanes = match &plan.lanes {
            Some(lanes) => lanes.count(),
            None => 1,
        };
        let cells = fabric.channels() as usize * usize::from(lanes);
        Ok(State {
            lanes,
            cells: vec![in alloc; None; cells]?,
        })
    }

    /// Offers the packets of all terminals to a LID. Where those of a switch are alike, the later ones would change
    /// nothing.
    fn offer_to(
        &mut self,
        fabric: &Fabric,
        plan: &Plan,
        lid: Lid,
        components: &Components,
        starts: &[Start],
    )
        requires fits { PlanFits fabric.now plan.now }
        requires admitted { IsSoundPlan fabric.now plan.now }
        requires components { components.now ≡ fabric.now }
        requires starts { AreStarts fabric.now starts.now }
        requires before { IsFilledBefore fabric.now plan.now (lid.0 ∷ []) self.old }
        ensures { IsFilledBefore fabric.now plan.now (suc lid.0 ∷ []) self.new }
    {
        let Some(place) = fabric.place_of(lid) else {
            return;
        };
        let alike = are_alike(plan);
        let mut source = None;
        for start in starts {
            if alike && source == Some(start.switch) {
                continue;
            }
            source = Some(start.switch);
            if components.are_connected(start.switch, place.switch) {
                self.offer_from(fabric, plan, *start, lid);
            }
        }
    }

    /// Offers the packets of a start's terminal to a LID.
    fn offer_from(&mut self, fabric: &Fabric, plan: &Plan, start: Start, lid: Lid)
        requires fits { PlanFits fabric.now plan.now }
        requires admitted { IsSoundPlan fabric.now plan.now }
        requires start { IsOfTerminal fabric.now start }
        requires connected { IsConnectedTo fabric.now start.switch.0 lid.0 }
        requires before { IsFilledBefore fabric.now plan.now (before_start lid.0 start) self.old }
        ensures { IsFilledBefore fabric.now plan.now (behind_start lid.0 start) self.new }
    {
        let Some(terminal) = fabric.terminal_at(start.switch, start.port) else {
            return;
        };
        let row = fabric.terminal(terminal);
        let mut position = 0;
        let mut remaining = hop_count(fabric, plan, row, lid);
        for at in packet_hops(fabric, plan, row, lid) {
            let packet = Packet {
                terminal,
                lid,
                position,
            };
            self.offer(at, Loaded { packet, remaining });
            position += 1;
            remaining -= 1;
        }
    }

    /// Offers a packet for a virtual channel: it is placed there if none is, or if it is the first that goes further.
    fn offer(&mut self, at: VirtualChannel, loaded: Loaded)
        requires { IsPlace self.old at }
        ensures { self.new ≡ offered_at self.old at loaded }
    {
        let is_taken = match self.get(at) {
            Some(standing) => loaded.remaining > 1 && standing.remaining <= 1,
            None => true,
        };
        if is_taken {
            self.set(at, Some(loaded));
        }
    }
}
