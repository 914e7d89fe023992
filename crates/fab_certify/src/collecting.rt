//! The dependencies of a plan, collected route by route.
//!
//! The dependencies are those of Dally and Seitz, over the virtual channels of a route: packets that hold one
//! wait for the next. What packets to a LID hold behind a switch depends on the switch and on their level
//! alone, since a switch has one entry for a LID, and the port by which they come to the next switch is that of
//! the channel. So the route from each switch at each level is gone along once for a LID, and by each start one
//! hop more: the lane of a start's first hop depends on the terminal's port.
ghost use Rattle.std.specs.Prelude.{◌≡◌, ◌+◌, ◌*◌, ◌<◌, ◌^◌, IfOk, OnOk};
ghost use Rattle.fab_model.specs.Connected.{IsConnectedTo};
ghost use Rattle.fab_tables.specs.Fit.{EntriesFit, LanesFit};
ghost use Rattle.fab_tables.specs.Dependencies.{node_of as number_by_lane};
ghost use Rattle.fab_tables.specs.Reaching.{IsToward};
ghost use Rattle.fab_tables.specs.Judged.{IsRoomFor};
ghost use Rattle.fab_tables.specs.Starts.{StartsAt, AreAllStarts, AreStartsFor, IsOfTerminal};
ghost use Rattle.fab_certify.specs.Numbered.{IsSound};
ghost use Rattle.fab_certify.specs.Collected.{Grows, IsFromRoutes, HasRoutes, HasRoutesFor, AreBehind, AreDependencies};

use crate::dependencies::Dependencies;
use fab_model::{Fabric, Lid};
use fab_tables::{Components, Lanes, Marks, Start, Starts, Tables, VirtualChannel, hops};
use std::alloc::{AllocError, Global};

/// Collects the virtual channels that the routes of a plan use, and their dependencies. Their numbers are
/// those by (channel, lane). For each LID it takes a step for each switch and level, and some for each start;
/// memory for each channel and lane, and for each dependency.
pub(crate) fn collect(
    alloc: Global,
    fabric: &Fabric,
    tables: &Tables,
    lanes: &Lanes,
    components: &Components,
    starts: &Starts,
    marks: &mut Marks,
) -> Result<Dependencies, AllocError>
    requires tables { EntriesFit fabric.now tables.now }
    requires lanes { LanesFit fabric.now lanes.now }
    requires components { components.now ≡ fabric.now }
    requires starts { AreAllStarts fabric.now starts.now }
    requires sound { IsSound fabric.now tables.now lanes.now }
    requires room { IsRoomFor fabric.now marks.old }
    ensures { IfOk result (AreDependencies fabric.now tables.now lanes.now) }
{
    let nodes = fabric.channels() * u32::from(lanes.count());
    let mut dependencies = Dependencies::new(alloc, nodes)?;
    let starts = starts.standing(lanes);
    for lid in fabric.lids_in_use() {
        collect_for(
            fabric,
            tables,
            lanes,
            *lid,
            components,
            starts,
            marks,
            &mut dependencies,
        )?;
    }
    Ok(dependencies)
}

/// Collects the routes to a LID. The marks are room for it.
fn collect_for(
    fabric: &Fabric,
    tables: &Tables,
    lanes: &Lanes,
    lid: Lid,
    components: &Components,
    starts: &[Start],
    marks: &mut Marks,
    dependencies: &mut Dependencies,
) -> Result<(), AllocError>
    requires toward { IsToward fabric.now tables.now lid.0 }
    requires lanes { LanesFit fabric.now lanes.now }
    requires components { components.now ≡ fabric.now }
    requires starts { AreStartsFor fabric.now lanes.now starts.now }
    requires sound { IsSound fabric.now tables.now lanes.now }
    requires room { IsRoomFor fabric.now marks.old }
    requires before { IsFromRoutes fabric.now tables.now lanes.now dependencies.old }
    ensures room { OnOk result (IsRoomFor fabric.now marks.new) }
    ensures from_routes { OnOk result (IsFromRoutes fabric.now tables.now lanes.now dependencies.new) }
    ensures grows { OnOk result (Grows dependencies.old dependencies.new) }
    ensures has { OnOk result (HasRoutesFor fabric.now tables.now lanes.now lid.0 dependencies.new) }
{
    let Some(place) = fabric.place_of(lid) else {
        return Ok(());
    };
    marks.clear();
    for start in starts {
        if components.are_connected(start.switch, place.switch) {
            collect_from(fabric, tables, lanes, lid, *start, marks, dependencies)?;
        }
    }
    Ok(())
}

/// Collects the route from a start to a LID that is connected to it.
fn collect_from(
    fabric: &Fabric,
    tables: &Tables,
    lanes: &Lanes,
    lid: Lid,
    start: Start,
    marks: &mut Marks,
    dependencies: &mut Dependencies,
) -> Result<(), AllocError>
    requires toward { IsToward fabric.now tables.now lid.0 }
    requires lanes { LanesFit fabric.now lanes.now }
    requires terminal { IsOfTerminal fabric.now start }
    requires connected { IsConnectedTo fabric.now start.switch.0 lid.0 }
    requires sound { IsSound fabric.now tables.now lanes.now }
    requires room { IsRoomFor fabric.now marks.old }
    requires before { IsFromRoutes fabric.now tables.now lanes.now dependencies.old }
    requires behind { AreBehind fabric.now tables.now lanes.now lid.0 marks.old dependencies.old }
    ensures room { OnOk result (IsRoomFor fabric.now marks.new) }
    ensures from_routes { OnOk result (IsFromRoutes fabric.now tables.now lanes.now dependencies.new) }
    ensures grows { OnOk result (Grows dependencies.old dependencies.new) }
    ensures behind { OnOk result (AreBehind fabric.now tables.now lanes.now lid.0 marks.new dependencies.new) }
    ensures has { OnOk result (HasRoutes fabric.now tables.now lanes.now lid.0 start dependencies.new) }
{
    match lanes.level(start.switch, lid) {
        Some(level) => collect_hops(
            fabric,
            tables,
            lanes,
            lid,
            start,
            level,
            marks,
            dependencies,
        ),
        None => Ok(()),
    }
}

/// Collects the hops from a start to a LID, for packets of this level. A switch and a level are marked once all
/// is collected behind the channel by which the packets leave the switch: from there one hop is left to do.
fn collect_hops(
    fabric: &Fabric,
    tables: &Tables,
    lanes: &Lanes,
    lid: Lid,
    start: Start,
    level: u8,
    marks: &mut Marks,
    dependencies: &mut Dependencies,
) -> Result<(), AllocError>
    requires starts { StartsAt fabric.now tables.now lanes.now lid.0 start level }
    requires sound { IsSound fabric.now tables.now lanes.now }
    requires room { IsRoomFor fabric.now marks.old }
    requires before { IsFromRoutes fabric.now tables.now lanes.now dependencies.old }
    requires behind { AreBehind fabric.now tables.now lanes.now lid.0 marks.old dependencies.old }
    ensures room { OnOk result (IsRoomFor fabric.now marks.new) }
    ensures from_routes { OnOk result (IsFromRoutes fabric.now tables.now lanes.now dependencies.new) }
    ensures grows { OnOk result (Grows dependencies.old dependencies.new) }
    ensures behind { OnOk result (AreBehind fabric.now tables.now lanes.now lid.0 marks.new dependencies.new) }
    ensures has { OnOk result (HasRoutes fabric.now tables.now lanes.now lid.0 start dependencies.new) }
{
    let count = lanes.count();
    let mut before = None;
    let mut known = false;
    for hop in hops(fabric, tables, lanes, start, lid, level) {
        let node = node_of(count, hop);
        dependencies.add(before, node)?;
        if known {
            return Ok(());
        }
        let at = fabric.channel(hop.channel).tail;
        known = marks.is_marked(at, level);
        marks.mark(at, level);
        before = Some(node);
    }
    Ok(())
}

/// The number of a virtual channel by (channel, lane), where there are so many lanes.
pub fn node_of(count: u8, hop: VirtualChannel) -> u32
    requires { hop.channel.0 * count + hop.lane < 2 ^ 32 }
    ensures { result ≡ number_by_lane count hop }
{
    hop.channel.0 * u32::from(count) + u32::from(hop.lane)
}
