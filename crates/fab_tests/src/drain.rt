//! Two switches with a terminal at the first, where one packet leaves. And a ring of five switches, each with a terminal,
//! under shortest routes: the packets on the channels of port 1 wait for each other, as those of port 2 do.
ghost use Rattle.std.specs.Prelude.{IfOk, OnOk};
ghost use Rattle.fab_tables.specs.Fit.{PlanFits};
ghost use Rattle.fab_certify.specs.Certificate.{IsSoundPlan};
ghost use Rattle.fab_drain.specs.Loads.{IsLoad, IsPacket};

use crate::fabrics::{RING_OF_FIVE, TWO_SWITCHES, fabric_of};
use crate::plans::{nth_lid, plan_of, set_entry};
use fab_drain::{Drained, Filled, Moved, Packet, Put, State, fill};
use fab_model::{ChannelId, Fabric, Lid, SwitchId, TerminalId};
use fab_tables::{Components, End, Plan, Verdict, VirtualChannel, follow};
use std::alloc::{AllocError, Global};
use std::process::Abort;
use std::test::Fail;

// The port of each switch for each LID, switch by switch.
const OF_TWO_SWITCHES: [u8; 6] = [0, 1, 2, 1, 0, 1];

const SHORTEST_ON_THE_RING: [u8; 50] = [
    0, 1, 1, 2, 2, 3, 1, 1, 2, 2, //
    2, 0, 1, 1, 2, 2, 3, 1, 1, 2, //
    2, 2, 0, 1, 1, 2, 2, 3, 1, 1, //
    1, 2, 2, 0, 1, 1, 2, 2, 3, 1, //
    1, 1, 2, 2, 0, 1, 1, 2, 2, 3, //
];

/// A full load.
fn full(rt: &impl Abort, alloc: Global, fabric: &Fabric, plan: &Plan) -> Result<State, Fail>
    ensures fits { OnOk result (PlanFits fabric.now plan.now) }
    ensures admitted { OnOk result (IsSoundPlan fabric.now plan.now) }
    ensures load { IfOk result (IsLoad fabric.now plan.now) }
{
    assert!(rt; plan.fits(fabric));
    match fill(alloc, fabric, plan)? {
        Filled::Full(state) => Ok(state),
        Filled::Refused(fault) => Err(Fail::new(format_args!("{fault:?}"))),
    }
}

fn advanced(rt: &impl Abort, fabric: &Fabric, plan: &Plan, state: &mut State, channel: u32) -> Moved
    requires fits { PlanFits fabric.now plan.now }
    requires admitted { IsSoundPlan fabric.now plan.now }
    requires load { IsLoad fabric.now plan.now state.old }
    ensures { IsLoad fabric.now plan.now state.new }
{
    assert!(rt; channel < fabric.channels());
    let at = VirtualChannel {
        channel: ChannelId(channel),
        lane: 0,
    };
    state.advance(fabric, plan, at)
}

// The packet of the first terminal for the LID at a place of their list, at its first hop. The plan has no lanes.
fn first_packet(
    rt: &impl Abort,
    alloc: Global,
    fabric: &Fabric,
    plan: &Plan,
    index: u32,
) -> Result<Packet, AllocError>
    requires { PlanFits fabric.now plan.now }
    ensures { IfOk result (IsPacket fabric.now plan.now) }
{
    assert!(rt; plan.lanes.is_none());
    assert!(rt; 0 < fabric.terminals());
    let row = fabric.terminal(TerminalId(0));
    let lid = nth_lid(rt, fabric, index);
    let place = fabric.place_of(lid).expect(rt, "a place");
    let components = Components::of(alloc, fabric)?;
    assert!(rt; components.are_connected(row.switch, place.switch));
    let first = follow(fabric, &plan.tables, row.switch, lid).next();
    assert!(rt; first.is_some());
    Ok(Packet {
        terminal: TerminalId(0),
        lid,
        position: 0,
    })
}

// Takes all packets out, puts this one, and once more.
fn put_alone(fabric: &Fabric, plan: &Plan, state: &mut State, packet: Packet) -> (Put, Put)
    requires fits { PlanFits fabric.now plan.now }
    requires admitted { IsSoundPlan fabric.now plan.now }
    requires load { IsLoad fabric.now plan.now state.old }
    requires packet { IsPacket fabric.now plan.now packet }
    ensures { IsLoad fabric.now plan.now state.new }
{
    state.clear();
    let first = state.put(fabric, plan, packet);
    let second = state.put(fabric, plan, packet);
    (first, second)
}

#[test]
fn one_packet_leaves(rt: HostRuntime) -> Result<(), Fail> {
    let fabric = fabric_of(&rt, rt.alloc(), 2, 3, &TWO_SWITCHES)?;
    let plan = plan_of(&rt, rt.alloc(), &fabric, &OF_TWO_SWITCHES)?;
    let mut state = full(&rt, rt.alloc(), &fabric, &plan)?;
    assert_eq!(rt; state.packets(), 1);
    assert_eq!(rt; state.remaining(), 1);
    let drained = state.drain(rt.alloc(), &fabric, &plan)?;
    assert!(rt; matches!(drained, Drained::Empty { moves: 1 }));
    assert_eq!(rt; state.packets(), 0);
    Ok(())
}

#[test]
fn packets_on_a_ring_wait(rt: HostRuntime) -> Result<(), Fail> {
    let fabric = fabric_of(&rt, rt.alloc(), 5, 10, &RING_OF_FIVE)?;
    let plan = plan_of(&rt, rt.alloc(), &fabric, &SHORTEST_ON_THE_RING)?;
    let mut state = full(&rt, rt.alloc(), &fabric, &plan)?;
    assert_eq!(rt; state.packets(), 10);
    assert_eq!(rt; state.remaining(), 20);
    assert_eq!(rt; advanced(&rt, &fabric, &plan, &mut state, 0), Moved::Waits);
    let drained = state.drain(rt.alloc(), &fabric, &plan)?;
    let waits =
        matches!(&drained, Drained::Waiting { moves: 0, ring } if ring.nodes() == [0, 2, 4, 6, 8].as_slice());
    assert!(rt; waits);
    assert_eq!(rt; state.packets(), 10);
    Ok(())
}

#[test]
fn a_packet_alone_goes_on(rt: HostRuntime) -> Result<(), Fail> {
    let fabric = fabric_of(&rt, rt.alloc(), 5, 10, &RING_OF_FIVE)?;
    let plan = plan_of(&rt, rt.alloc(), &fabric, &SHORTEST_ON_THE_RING)?;
    let mut state = full(&rt, rt.alloc(), &fabric, &plan)?;
    let packet = first_packet(&rt, rt.alloc(), &fabric, &plan, 2)?;
    let puts = put_alone(&fabric, &plan, &mut state, packet);
    assert_eq!(rt; puts, (Put::Placed, Put::Taken));
    assert_eq!(rt; state.remaining(), 2);
    assert_eq!(rt; advanced(&rt, &fabric, &plan, &mut state, 0), Moved::Went);
    assert_eq!(rt;
        advanced(&rt, &fabric, &plan, &mut state, 0),
        Moved::Nothing
    );
    assert_eq!(rt; state.remaining(), 1);
    assert_eq!(rt; advanced(&rt, &fabric, &plan, &mut state, 2), Moved::Left);
    assert_eq!(rt; state.packets(), 0);
    Ok(())
}

#[test]
fn a_lost_packet_is_refused(rt: HostRuntime) -> Result<(), Fail> {
    let fabric = fabric_of(&rt, rt.alloc(), 2, 3, &TWO_SWITCHES)?;
    let mut plan = plan_of(&rt, rt.alloc(), &fabric, &OF_TWO_SWITCHES)?;
    set_entry(&rt, &fabric, &mut plan, (0, 1), 255);
    assert!(rt; plan.fits(&fabric));
    let fault = match fill(rt.alloc(), &fabric, &plan)? {
        Filled::Refused(fault) => Some(fault),
        Filled::Full(_) => None,
    };
    let fault = fault.ok_or("refused")?;
    let lost = Verdict::Unreached {
        lid: Lid(2),
        switch: SwitchId(0),
        end: End::NoEntry,
    };
    assert_eq!(rt; fault, lost);
    Ok(())
}
