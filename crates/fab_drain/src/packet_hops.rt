//! The virtual channels of a packet's route, in the lanes with which its plan is read: a plan without lanes has one
//! lane, and level 0 everywhere. A hop takes the time that the plan's tables and lanes take, and no memory.
ghost use Rattle.std.specs.Prelude.{◌≡◌, length, slice_get};
ghost use Rattle.fab_model.specs.WellFormed.{IsFabric};
ghost use Rattle.fab_tables.specs.Dependencies.{IsPath};
ghost use Rattle.fab_tables.specs.Fit.{PlanFits};
ghost use Rattle.fab_tables.specs.Reading.{hops_read};
ghost use Rattle.fab_drain.specs.Loads.{hops_of, IsPacket};
ghost use Rattle.fab_drain.specs.Ways.{hops_on};

use crate::packet::Packet;
use fab_model::{Fabric, Lid, TerminalRow};
use fab_tables::{Following, Plan, RouteHops, Start, VirtualChannel, follow, hops};
use std::marker::Model;

/// The virtual channels of a route that are still to come.
#[derive(Drop)]
pub(crate) struct PacketHops<'a> {
    way: Way<'a>,
}

#[derive(Drop)]
enum Way<'a> {
    /// A plan without lanes: each channel has lane 0.
    OneLane(Following<'a>),
    Lanes(RouteHops<'a>),
    /// The source has no level for the LID.
    NoLevel,
}

impl<'a> Model for PacketHops<'a> {
    ghost use Rattle.fab_tables.specs.HopsAhead.{HopsAhead};
    ghost use Rattle.fab_drain.specs.Ways.{hops_on};

    ghost Value = { HopsAhead };

    ghost view = { λ h. hops_on h.way };
}

impl<'a> Iterator for PacketHops<'a> {
    type Item = VirtualChannel;

    ghost use Rattle.std.specs.Iterator.{item_count};
    ghost use Rattle.fab_tables.specs.HopsAhead.{HopsAhead, TakesHop};

    ghost next_gives = { TakesHop };

    ghost remaining = { item_count (λ (h : HopsAhead). h.hops) };

    fn next(&mut self) -> Option<VirtualChannel> {
        match &mut self.way {
            Way::OneLane(channels) => {
                let channel = channels.next()?;
                Some(VirtualChannel { channel, lane: 0 })
            }
            Way::Lanes(hops) => hops.next(),
            Way::NoLevel => None,
        }
    }
}

/// The virtual channels of the route from a terminal to a LID that is connected to its switch.
pub(crate) fn packet_hops<'a>(
    fabric: &'a Fabric,
    plan: &'a Plan,
    terminal: TerminalRow,
    lid: Lid,
) -> PacketHops<'a>
    requires fabric { IsFabric fabric.now }
    requires fits { PlanFits fabric.now plan.now }
    requires path { IsPath fabric.now terminal lid.0 }
    ensures { result.hops ≡ hops_read fabric.now plan.now terminal lid.0 }
{
    PacketHops {
        way: way_to(fabric, plan, terminal, lid),
    }
}

fn way_to<'a>(fabric: &'a Fabric, plan: &'a Plan, terminal: TerminalRow, lid: Lid) -> Way<'a>
    requires fabric { IsFabric fabric.now }
    requires fits { PlanFits fabric.now plan.now }
    requires path { IsPath fabric.now terminal lid.0 }
    ensures { (hops_on result).hops ≡ hops_read fabric.now plan.now terminal lid.0 }
{
    let start = Start {
        switch: terminal.switch,
        port: terminal.port,
    };
    match &plan.lanes {
        None => Way::OneLane(follow(fabric, &plan.tables, start.switch, lid)),
        Some(lanes) => match lanes.level(start.switch, lid) {
            None => Way::NoLevel,
            Some(level) => Way::Lanes(hops(fabric, &plan.tables, lanes, start, lid, level)),
        },
    }
}

/// The virtual channel of a packet's route at a position. None behind the last one.
pub(crate) fn hop_at(
    fabric: &Fabric,
    plan: &Plan,
    packet: Packet,
    position: u32,
) -> Option<VirtualChannel>
    requires fabric { IsFabric fabric.now }
    requires fits { PlanFits fabric.now plan.now }
    requires packet { IsPacket fabric.now plan.now packet }
    ensures { result ≡ slice_get (hops_of fabric.now plan.now packet) position }
{
    let row = fabric.terminal(packet.terminal);
    let mut left = position;
    for hop in packet_hops(fabric, plan, row, packet.lid) {
        if left == 0 {
            return Some(hop);
        }
        left -= 1;
    }
    None
}

/// How many hops the route from a terminal to a LID has.
pub(crate) fn hop_count(fabric: &Fabric, plan: &Plan, terminal: TerminalRow, lid: Lid) -> u32
    requires fabric { IsFabric fabric.now }
    requires fits { PlanFits fabric.now plan.now }
    requires path { IsPath fabric.now terminal lid.0 }
    ensures { result ≡ length (hops_read fabric.now plan.now terminal lid.0) }
{
    let mut hops = packet_hops(fabric, plan, terminal, lid);
    let mut count = 0;
    while let Some(_) = hops.next() {
        count += 1;
    }
    count
}
