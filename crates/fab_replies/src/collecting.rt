//! The dependencies of packets and of replies, collected LID by LID.
//!
//! Packets and replies to a LID take the same entries. What follows behind a switch depends on the switch and on the
//! level alone, so for a LID the route from each switch at each level is gone along once. Where pairs of ports have
//! maps, each packet or reply that begins there takes one hop more: the lane of its first hop depends on the port by
//! which it comes in.
ghost use Rattle.std.specs.Prelude.{◌≡◌, ◌<◌, ◌∷◌, [], length, Contains, None, IfOk, OnOk, MatchOption};
ghost use Rattle.fab_model.specs.Topology.{lids_of};
ghost use Rattle.fab_model.specs.Connected.{IsConnectedTo};
ghost use Rattle.fab_tables.specs.First.{FindsFirst, Beneath};
ghost use Rattle.fab_tables.specs.Judged.{IsRoomFor};
ghost use Rattle.fab_tables.specs.Starts.{AreStartsFor, IsOfTerminal};
ghost use Rattle.fab_certify.specs.Numbered.{IsSound};
ghost use Rattle.fab_certify.specs.Collected.{Grows, HasRoutes};
ghost use Rattle.fab_replies.specs.Answers.{IsFaultAt};
ghost use Rattle.fab_replies.specs.Jointly as jointly;
ghost use Rattle.fab_replies.specs.ReplyTo.{HasReply, IsBadReply, HasReplies, FindsReplyWay};

use crate::reading::Reading;
use crate::replied::Replied;
use fab_certify::{Dependencies, node_of};
use fab_model::{Lid, SwitchId};
use fab_tables::{Marks, Start};
use std::alloc::{AllocError, Global};

/// What is collected: the joint dependencies, or the first reply that has a lane that isn't below the lane count.
#[derive(Drop)]
pub(crate) enum Joint {
    Dependencies(Dependencies),
    Fault(Replied),
}

/// Where packets or replies to a LID begin, and their level.
#[derive(Clone, Copy, Drop)]
pub(crate) struct Way {
    start: Start,
    lid: Lid,
    level: u8,
}

/// Collects the virtual channels that packets and replies use, and the joint dependencies.
pub(crate) fn collect(
    alloc: Global,
    reading: &Reading,
    starts: &[Start],
) -> Result<Joint, AllocError>
    requires sound { IsSound reading.now.fabric reading.now.entries reading.now.lanes }
    requires starts { AreStartsFor reading.now.fabric reading.now.lanes starts.now }
    ensures { IfOk result (jointly.IsJoint reading.now.fabric reading.now.entries reading.now.lanes) }
{
    let fabric = reading.fabric();
    let mut dependencies = Dependencies::new(alloc, reading.virtual_channels())?;
    let mut marks = Marks::new(alloc, fabric)?;
    for lid in fabric.lids_in_use() {
        marks.clear();
        collect_packets(reading, *lid, starts, &mut marks, &mut dependencies)?;
        let fault = collect_replies(reading, *lid, &mut marks, &mut dependencies)?;
        if let Some(fault) = fault {
            return Ok(Joint::Fault(fault));
        }
    }
    Ok(Joint::Dependencies(dependencies))
}

/// Collects the packets to a LID, from all terminals connected to it.
fn collect_packets(
    reading: &Reading,
    lid: Lid,
    starts: &[Start],
    marks: &mut Marks,
    dependencies: &mut Dependencies,
) -> Result<(), AllocError>
    requires sound { IsSound reading.now.fabric reading.now.entries reading.now.lanes }
    requires in_use { Contains (lids_of reading.now.fabric) lid.0 }
    requires starts { AreStartsFor reading.now.fabric reading.now.lanes starts.now }
    requires from_both { jointly.IsFromBoth reading.now.fabric reading.now.entries reading.now.lanes dependencies.old }
    requires marked { jointly.AreMarked reading.now.fabric reading.now.entries reading.now.lanes lid.0 marks.old dependencies.old }
    ensures from_both { OnOk result (jointly.IsFromBoth reading.now.fabric reading.now.entries reading.now.lanes dependencies.new) }
    ensures grows { OnOk result (Grows dependencies.old dependencies.new) }
    ensures marked { OnOk result (jointly.AreMarked reading.now.fabric reading.now.entries reading.now.lanes lid.0 marks.new dependencies.new) }
    ensures has { OnOk result (jointly.HasPacketsTo reading.now.fabric reading.now.entries reading.now.lanes lid.0 dependencies.new) }
{
    let Some(place) = reading.fabric().place_of(lid) else {
        return Ok(());
    };
    for start in starts {
        if reading.are_connected(start.switch, place.switch) {
            collect_from(reading, lid, *start, marks, dependencies)?;
        }
    }
    Ok(())
}

/// Collects the packets from a start to a LID that is connected to it.
fn collect_from(
    reading: &Reading,
    lid: Lid,
    start: Start,
    marks: &mut Marks,
    dependencies: &mut Dependencies,
) -> Result<(), AllocError>
    requires sound { IsSound reading.now.fabric reading.now.entries reading.now.lanes }
    requires in_use { Contains (lids_of reading.now.fabric) lid.0 }
    requires terminal { IsOfTerminal reading.now.fabric start }
    requires switch { start.switch.0 < length reading.now.fabric.switches }
    requires connected { IsConnectedTo reading.now.fabric start.switch.0 lid.0 }
    requires from_both { jointly.IsFromBoth reading.now.fabric reading.now.entries reading.now.lanes dependencies.old }
    requires marked { jointly.AreMarked reading.now.fabric reading.now.entries reading.now.lanes lid.0 marks.old dependencies.old }
    ensures from_both { OnOk result (jointly.IsFromBoth reading.now.fabric reading.now.entries reading.now.lanes dependencies.new) }
    ensures grows { OnOk result (Grows dependencies.old dependencies.new) }
    ensures marked { OnOk result (jointly.AreMarked reading.now.fabric reading.now.entries reading.now.lanes lid.0 marks.new dependencies.new) }
    ensures has { OnOk result (HasRoutes reading.now.fabric reading.now.entries reading.now.lanes lid.0 start dependencies.new) }
{
    let Some(level) = reading.level(start.switch, lid) else {
        return Ok(());
    };
    let way = Way { start, lid, level };
    collect_hops(reading, way, marks, dependencies)?;
    Ok(())
}

/// Collects the replies to a LID, if it is a terminal's, by the LIDs that they come from; or finds the first that has a
/// bad lane.
fn collect_replies(
    reading: &Reading,
    lid: Lid,
    marks: &mut Marks,
    dependencies: &mut Dependencies,
) -> Result<Option<Replied>, AllocError>
    requires sound { IsSound reading.now.fabric reading.now.entries reading.now.lanes }
    requires in_use { Contains (lids_of reading.now.fabric) lid.0 }
    requires from_both { jointly.IsFromBoth reading.now.fabric reading.now.entries reading.now.lanes dependencies.old }
    requires marked { jointly.AreMarked reading.now.fabric reading.now.entries reading.now.lanes lid.0 marks.old dependencies.old }
    ensures fault { IfOk result (FindsFirst (Beneath (lid.0 ∷ []) (IsFaultAt reading.now.fabric reading.now.entries reading.now.lanes))) }
    ensures room { OnOk result (IsRoomFor reading.now.fabric marks.new) }
    ensures from_both { OnOk result (jointly.IsFromBoth reading.now.fabric reading.now.entries reading.now.lanes dependencies.new) }
    ensures grows { OnOk result (Grows dependencies.old dependencies.new) }
    ensures has { IfOk result (λ fault. fault ≡ None → HasReplies reading.now.fabric reading.now.entries reading.now.lanes lid.0 dependencies.new) }
{
    let fabric = reading.fabric();
    let Some(home) = fabric.place_of(lid) else {
        return Ok(None);
    };
    if home.port == 0 {
        return Ok(None);
    }
    for from in fabric.lids_in_use() {
        if let Some(at) = collect_reply(reading, home.switch, lid, *from, marks, dependencies)? {
            return Ok(Some(Replied::BadLane {
                lid,
                from: *from,
                at,
            }));
        }
    }
    Ok(None)
}

/// Collects the reply to a terminal's LID that comes from a LID, if there is one, up to a hop that has a bad lane: the
/// switch that it leaves is told.
fn collect_reply(
    reading: &Reading,
    home: SwitchId,
    lid: Lid,
    from: Lid,
    marks: &mut Marks,
    dependencies: &mut Dependencies,
) -> Result<Option<SwitchId>, AllocError>
    requires sound { IsSound reading.now.fabric reading.now.entries reading.now.lanes }
    requires in_use { Contains (lids_of reading.now.fabric) lid.0 }
    requires home { jointly.IsHome reading.now.fabric lid.0 home.0 }
    requires from_both { jointly.IsFromBoth reading.now.fabric reading.now.entries reading.now.lanes dependencies.old }
    requires marked { jointly.AreMarked reading.now.fabric reading.now.entries reading.now.lanes lid.0 marks.old dependencies.old }
    ensures from_both { OnOk result (jointly.IsFromBoth reading.now.fabric reading.now.entries reading.now.lanes dependencies.new) }
    ensures grows { OnOk result (Grows dependencies.old dependencies.new) }
    ensures marked { IfOk result (λ bad. bad ≡ None → jointly.AreMarked reading.now.fabric reading.now.entries reading.now.lanes lid.0 marks.new dependencies.new) }
    ensures room { OnOk result (IsRoomFor reading.now.fabric marks.new) }
    ensures reply { IfOk result (λ bad. MatchOption bad (HasReply reading.now.fabric reading.now.entries reading.now.lanes lid.0 from.0 dependencies.new) (IsBadReply reading.now.fabric reading.now.entries reading.now.lanes lid.0 from.0)) }
{
    let Some(way) = reply_way(reading, home, lid, from) else {
        return Ok(None);
    };
    if reading.pairs() == 0 && marks.is_marked(way.start.switch, way.level) {
        return Ok(None);
    }
    collect_hops(reading, way, marks, dependencies)
}

/// Where the reply to a terminal's LID begins that comes from a LID; None where the terminal's switch isn't connected
/// to that LID.
fn reply_way(reading: &Reading, home: SwitchId, lid: Lid, from: Lid) -> Option<Way>
    requires sound { IsSound reading.now.fabric reading.now.entries reading.now.lanes }
    requires home { jointly.IsHome reading.now.fabric lid.0 home.0 }
    ensures { FindsReplyWay reading.now.fabric reading.now.entries reading.now.lanes lid.0 from.0 result }
{
    let source = reading.fabric().place_of(from)?;
    if !reading.are_connected(home, source.switch) {
        return None;
    }
    let level = reading.level(home, from)?;
    let start = Start {
        switch: source.switch,
        port: source.port,
    };
    Some(Way { start, lid, level })
}

/// Collects the hops of a way, up to one that has a bad lane: the switch that it leaves is told. A switch and a level
/// are marked once all is collected behind the channel by which the way leaves the switch: from there one hop is left
/// to do.
fn collect_hops(
    reading: &Reading,
    way: Way,
    marks: &mut Marks,
    dependencies: &mut Dependencies,
) -> Result<Option<SwitchId>, AllocError>
    requires sound { IsSound reading.now.fabric reading.now.entries reading.now.lanes }
    requires way { jointly.IsWay reading.now.fabric reading.now.entries reading.now.lanes way }
    requires from_both { jointly.IsFromBoth reading.now.fabric reading.now.entries reading.now.lanes dependencies.old }
    requires marked { jointly.AreMarked reading.now.fabric reading.now.entries reading.now.lanes way.lid.0 marks.old dependencies.old }
    ensures from_both { OnOk result (jointly.IsFromBoth reading.now.fabric reading.now.entries reading.now.lanes dependencies.new) }
    ensures grows { OnOk result (Grows dependencies.old dependencies.new) }
    ensures marked { IfOk result (λ bad. bad ≡ None → jointly.AreMarked reading.now.fabric reading.now.entries reading.now.lanes way.lid.0 marks.new dependencies.new) }
    ensures room { OnOk result (IsRoomFor reading.now.fabric marks.new) }
    ensures hops { IfOk result (λ bad. MatchOption bad (jointly.AreDone reading.now.lanes (jointly.hops_of reading.now.fabric reading.now.entries reading.now.lanes way) dependencies.new) (jointly.IsFirstBad reading.now.fabric reading.now.lanes (jointly.hops_of reading.now.fabric reading.now.entries reading.now.lanes way))) }
{
    let count = reading.count();
    let mut before = None;
    let mut known = false;
    for hop in reading.hops(way.start, way.lid, way.level) {
        let at = reading.fabric().channel(hop.channel).tail;
        if hop.lane >= count {
            return Ok(Some(at));
        }
        let node = node_of(count, hop);
        dependencies.add(before, node)?;
        if known {
            return Ok(None);
        }
        known = marks.is_marked(at, way.level);
        marks.mark(at, way.level);
        before = Some(node);
    }
    Ok(None)
}
