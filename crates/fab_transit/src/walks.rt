//! The mixed walks to each LID, by a search over where packets stand.
//!
//! Where a packet may go depends on its LID and level, on the switch where it stands and on the port by which it
//! came; and the two last are told by the virtual channel that it holds. So the virtual channels that packets to
//! a LID take are found one after the other, each once for each level, and not walk by walk: first those at the
//! terminals, then those behind each one that is found. The search notes the dependencies, and the first fault.
//!
//! For each LID it takes a step for each start and for each virtual channel and level that is found.
//!
//! Source: the search is E. F. Moore's, "The Shortest Path through a Maze", Proceedings of the International
//! Symposium on the Theory of Switching (1959); the dependencies of virtual channels are W. J. Dally's and
//! C. L. Seitz's, "Deadlock-Free Message Routing in Multiprocessor Interconnection Networks", IEEE Transactions
//! on Computers 36 (1987).

ghost use Rattle.std.specs.Prelude.{◌≡◌, ◌<◌, length, Contains, Some, IfOk, OnOk};
ghost use Rattle.fab_model.specs.Connected.{IsConnectedTo};
ghost use Rattle.fab_model.specs.Topology.{lids_of};
ghost use Rattle.fab_tables.specs.Dependencies.{node_of as number_by_lane};
ghost use Rattle.fab_tables.specs.Starts.{IsOfTerminal};
ghost use Rattle.fab_transit.specs.MixedWalks.{bound, standing_after};
ghost use Rattle.fab_transit.specs.Changing.{IsChanging, standing_of};
ghost use Rattle.fab_transit.specs.Finding.{IsTakenIn, AreRooms};
ghost use Rattle.fab_transit.specs.Standing.{AreStanding};
ghost use Rattle.fab_transit.specs.Walking as walking;

use crate::faults::{Fault, Wrong, note};
use crate::found::{Found, Taken};
use crate::mixed::Side;
use crate::plans::Plans;
use fab_certify::{Dependencies, node_of};
use fab_model::{ChannelId, Lid};
use fab_tables::{Components, End, Start, VirtualChannel};
use std::alloc::{AllocError, Global};

/// What the mixed walks do: the virtual channels that they use, which of them follow each other, and the first
/// fault that they come to.
#[derive(Drop)]
pub(crate) struct Walks {
    pub(crate) dependencies: Dependencies,
    pub(crate) fault: Option<Fault>,
}

/// A packet under way.
#[derive(Clone, Copy, Drop)]
struct Packet {
    lid: Lid,
    level: u8,
    // the switch where it stands, and the port by which it came
    here: Start,
    // the number of the virtual channel that it holds, unless it is at its terminal's switch
    held: Option<u32>,
}

/// Finds out what mixed walks do, LID by LID. It takes memory for each virtual channel and level, and for each
/// dependency.
pub(crate) fn find_walks(
    alloc: Global,
    plans: &Plans,
    components: &Components,
    starts: &[Start],
) -> Result<Walks, AllocError>
    requires components { components.now ≡ plans.now.fabric }
    requires starts { AreStanding plans.now.fabric plans.now.change starts.now }
    ensures { IfOk result (walking.AreWalks plans.now.fabric plans.now.change) }
{
    let mut found = Found::new(alloc, plans)?;
    let mut walks = Walks {
        dependencies: Dependencies::new(alloc, plans.virtual_channels())?,
        fault: None,
    };
    for lid in plans.fabric().lids_in_use() {
        found.clear();
        begin(plans, *lid, components, starts, &mut found, &mut walks)?;
        go_on(plans, *lid, &mut found, &mut walks)?;
    }
    Ok(walks)
}

/// Begins the walks to a LID at the starts connected to it.
fn begin(
    plans: &Plans,
    lid: Lid,
    components: &Components,
    starts: &[Start],
    found: &mut Found,
    walks: &mut Walks,
) -> Result<(), AllocError>
    requires components { components.now ≡ plans.now.fabric }
    requires starts { AreStanding plans.now.fabric plans.now.change starts.now }
    requires in_use { Contains (lids_of plans.now.fabric) lid.0 }
    requires from_walks { walking.AreFromWalks plans.now.fabric plans.now.change walks.old }
    requires found_for { walking.AreFoundFor plans.now.fabric plans.now.change lid.0 found.old }
    ensures from_walks { OnOk result (walking.AreFromWalks plans.now.fabric plans.now.change walks.new) }
    ensures found_for { OnOk result (walking.AreFoundFor plans.now.fabric plans.now.change lid.0 found.new) }
    ensures advances { OnOk result (walking.Advances found.old found.new walks.old walks.new) }
    ensures begun { OnOk result (walking.AreBegun plans.now.fabric plans.now.change lid.0 found.new walks.new) }
{
    let Some(place) = plans.fabric().place_of(lid) else {
        return Ok(());
    };
    for start in starts {
        if components.are_connected(start.switch, place.switch) {
            begin_at(plans, Side::Old, lid, *start, found, walks)?;
            begin_at(plans, Side::New, lid, *start, found, walks)?;
        }
    }
    Ok(())
}

/// Begins the walks to a LID from a terminal, at the level that one of the plans gives.
fn begin_at(
    plans: &Plans,
    side: Side,
    lid: Lid,
    start: Start,
    found: &mut Found,
    walks: &mut Walks,
) -> Result<(), AllocError>
    requires changing { IsChanging plans.now }
    requires in_use { Contains (lids_of plans.now.fabric) lid.0 }
    requires terminal { IsOfTerminal plans.now.fabric start }
    requires connected { IsConnectedTo plans.now.fabric start.switch.0 lid.0 }
    requires from_walks { walking.AreFromWalks plans.now.fabric plans.now.change walks.old }
    requires found_for { walking.AreFoundFor plans.now.fabric plans.now.change lid.0 found.old }
    ensures from_walks { OnOk result (walking.AreFromWalks plans.now.fabric plans.now.change walks.new) }
    ensures found_for { OnOk result (walking.AreFoundFor plans.now.fabric plans.now.change lid.0 found.new) }
    ensures advances { OnOk result (walking.Advances found.old found.new walks.old walks.new) }
    ensures begun { OnOk result (walking.BeginsFrom plans.now.fabric plans.now.change lid.0 start side found.new walks.new) }
{
    let Some(level) = plans.level(side, start.switch, lid) else {
        return Ok(());
    };
    let packet = Packet {
        lid,
        level,
        here: start,
        held: None,
    };
    look(plans, packet, found, walks)
}

/// Goes on behind each virtual channel that is found, until none is left.
fn go_on(plans: &Plans, lid: Lid, found: &mut Found, walks: &mut Walks) -> Result<(), AllocError>
    requires changing { IsChanging plans.now }
    requires in_use { Contains (lids_of plans.now.fabric) lid.0 }
    requires from_walks { walking.AreFromWalks plans.now.fabric plans.now.change walks.old }
    requires found_for { walking.AreFoundFor plans.now.fabric plans.now.change lid.0 found.old }
    requires starts { walking.AreBegun plans.now.fabric plans.now.change lid.0 found.old walks.old }
    ensures from_walks { OnOk result (walking.AreFromWalks plans.now.fabric plans.now.change walks.new) }
    ensures keeps { OnOk result (walking.Keeps walks.old walks.new) }
    ensures rooms { OnOk result (AreRooms plans.now found.new) }
    ensures has { OnOk result (walking.HasWalks plans.now.fabric plans.now.change lid.0 walks.new) }
{
    let mut place = 0;
    while let Some(taken) = found.get(place) {
        look(plans, packet_on(plans, lid, taken), found, walks)?;
        place += 1;
    }
    Ok(())
}

/// The packet to a LID at the end of a virtual channel that it takes.
fn packet_on(plans: &Plans, lid: Lid, taken: Taken) -> Packet
    requires { IsTakenIn (length plans.now.fabric.channels) (bound plans.now.change) taken }
    ensures lid { result.lid ≡ lid }
    ensures level { result.level ≡ taken.level }
    ensures here { standing_of result.here ≡ standing_after plans.now.fabric taken.hop.channel.0 }
    ensures held { result.held ≡ Some (number_by_lane (bound plans.now.change) taken.hop) }
    ensures switch { result.here.switch.0 < length plans.now.fabric.switches }
{
    let row = plans.fabric().channel(taken.hop.channel);
    Packet {
        lid,
        level: taken.level,
        here: Start {
            switch: row.tip,
            port: row.tip_port,
        },
        held: Some(node_of(plans.bound(), taken.hop)),
    }
}

/// Looks at all that a packet may do where it stands.
fn look(
    plans: &Plans,
    packet: Packet,
    found: &mut Found,
    walks: &mut Walks,
) -> Result<(), AllocError>
    requires packet { walking.IsUnderWay plans.now packet }
    requires room { walking.HaveRoom plans.now found.old walks.old.dependencies }
    ensures { OnOk result (walking.LooksAt (walking.Takes plans.now.fabric plans.now.change packet.lid.0 packet.level (standing_of packet.here)) (walking.IsWrong plans.now.fabric plans.now.change packet.lid.0 packet.level (standing_of packet.here)) plans.now.change packet.level packet.held found.old found.new walks.old walks.new) }
{
    look_at_entry(plans, Side::Old, packet, found, walks)?;
    look_at_entry(plans, Side::New, packet, found, walks)
}

/// Looks at what a packet may do by a plan's entry.
fn look_at_entry(
    plans: &Plans,
    side: Side,
    packet: Packet,
    found: &mut Found,
    walks: &mut Walks,
) -> Result<(), AllocError>
    requires packet { walking.IsUnderWay plans.now packet }
    requires room { walking.HaveRoom plans.now found.old walks.old.dependencies }
    ensures { OnOk result (walking.LooksAt (walking.TakesFrom plans.now.fabric plans.now.change packet.lid.0 packet.level (standing_of packet.here) side) (walking.IsWrongFrom plans.now.fabric plans.now.change packet.lid.0 packet.level (standing_of packet.here) side) plans.now.change packet.level packet.held found.old found.new walks.old walks.new) }
{
    match plans.hop(side, packet.here.switch, packet.lid) {
        Ok(channel) => {
            take_channel(plans, Side::Old, packet, channel, found, walks)?;
            take_channel(plans, Side::New, packet, channel, found, walks)?;
        }
        Err(End::Delivered) => {}
        Err(end) => {
            let fault = Fault {
                wrong: Wrong::Entry(end),
                lid: packet.lid,
                at: packet.here.switch,
                side,
            };
            note(&mut walks.fault, fault);
        }
    }
    Ok(())
}

/// A packet takes a channel, on the lane that a plan's map gives.
fn take_channel(
    plans: &Plans,
    side: Side,
    packet: Packet,
    channel: ChannelId,
    found: &mut Found,
    walks: &mut Walks,
) -> Result<(), AllocError>
    requires packet { walking.IsUnderWay plans.now packet }
    requires channel { channel.0 < length plans.now.fabric.channels }
    requires room { walking.HaveRoom plans.now found.old walks.old.dependencies }
    ensures { OnOk result (walking.LooksAt (walking.TakesBy plans.now.fabric plans.now.change packet.lid.0 packet.level (standing_of packet.here) side channel.0) (walking.IsBadBy plans.now.fabric plans.now.change packet.lid.0 packet.level (standing_of packet.here) side channel.0) plans.now.change packet.level packet.held found.old found.new walks.old walks.new) }
{
    let lane = plans.lane(side, packet.here, channel, packet.level);
    if lane >= plans.bound() {
        let fault = Fault {
            wrong: Wrong::Lane,
            lid: packet.lid,
            at: packet.here.switch,
            side,
        };
        note(&mut walks.fault, fault);
        return Ok(());
    }
    let hop = VirtualChannel { channel, lane };
    walks
        .dependencies
        .add(packet.held, node_of(plans.bound(), hop))?;
    found.add(Taken {
        hop,
        level: packet.level,
    })
}
