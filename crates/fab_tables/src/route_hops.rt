//! The virtual channels of a route. On each hop a packet takes a channel and a lane on it: the lane that the
//! switch gives its service level, by the port by which the packet comes and the port by which it leaves.
//!
//! A hop takes constant time, and the logarithm of the count of pairs that have a map; no memory. Lanes are
//! those of InfiniBand's SL-to-VL mapping; the virtual channels of a route are Dally and Seitz's.
ghost use Rattle.std.specs.Prelude.{◌≡◌, ◌<◌, length, Contains};
ghost use Rattle.fab_model.specs.Topology.{lids_of};
ghost use Rattle.fab_tables.specs.Fit.{EntriesFit, LanesFit};
ghost use Rattle.fab_tables.specs.Route.{route};
ghost use Rattle.fab_tables.specs.VirtualChannels.{on_channels};

use crate::following::{Following, follow};
use crate::lanes::Lanes;
use crate::starts::Start;
use crate::tables::Tables;
use crate::verdict::VirtualChannel;
use fab_model::{Fabric, Lid};
use std::marker::Model;

/// The virtual channels of a route, one after the other. It takes no memory.
#[derive(Drop)]
pub struct RouteHops<'a> {
    fabric: &'a Fabric,
    lanes: &'a Lanes,
    channels: Following<'a>,
    // the port by which the packet comes to the switch where it is
    from_port: u8,
    level: u8,
}

impl<'a> Model for RouteHops<'a> {
    ghost use Rattle.fab_tables.specs.HopsAhead.{HopsAhead, hops_ahead, CanTakeLanes};

    ghost Value = { HopsAhead };

    ghost view = { λ h. hops_ahead h.fabric.now h.lanes.now h.level h.from_port h.channels.channels };

    ghost invariant = { λ h. CanTakeLanes h.fabric.now h.lanes.now h.level h.channels.channels };
}

impl<'a> Iterator for RouteHops<'a> {
    type Item = VirtualChannel;

    ghost use Rattle.std.specs.Iterator.{item_count};
    ghost use Rattle.fab_tables.specs.HopsAhead.{HopsAhead, TakesHop};

    ghost next_gives = { TakesHop };

    ghost remaining = { item_count (λ (h : HopsAhead). h.hops) };

    fn next(&mut self) -> Option<VirtualChannel> {
        let channel = self.channels.next()?;
        let row = self.fabric.channel(channel);
        let lane = self
            .lanes
            .lane_at(row.tail, self.from_port, row.port, self.level);
        self.from_port = row.tip_port;
        Some(VirtualChannel { channel, lane })
    }
}

/// The virtual channels of the route from a start to a LID, for packets of this level.
pub fn hops<'a>(
    fabric: &'a Fabric,
    tables: &'a Tables,
    lanes: &'a Lanes,
    start: Start,
    lid: Lid,
    level: u8,
) -> RouteHops<'a>
    requires tables { EntriesFit fabric.now tables.now }
    requires lanes { LanesFit fabric.now lanes.now }
    requires switch { start.switch.0 < length fabric.now.switches }
    requires in_use { Contains (lids_of fabric.now) lid.0 }
    requires level { level < 16 }
    ensures { result.hops ≡ on_channels fabric.now lanes.now level start.port (route fabric.now tables.now start.switch.0 lid.0).channels }
{
    RouteHops {
        fabric,
        lanes,
        channels: follow(fabric, tables, start.switch, lid),
        from_port: start.port,
        level,
    }
}
