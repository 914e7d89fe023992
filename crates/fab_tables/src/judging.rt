//! The hops of one route: whether their lanes are below the lane count, their virtual channels have numbers, and
//! the numbers rise from hop to hop (Dally and Seitz).
//!
//! A walk marks the switches that it leaves, and goes on up to the first one that another walk has marked, and
//! where pairs of ports have maps one hop past it. It takes no memory.
ghost use Rattle.std.specs.Prelude.{◌≡◌, ◌<◌, ◌∷◌, [], None, IfSome};
ghost use Rattle.fab_tables.specs.declared.end.End.TheVariants.{Delivered as delivery};
ghost use Rattle.fab_tables.specs.LaneTables.{AreLaneTables};
ghost use Rattle.fab_tables.specs.First.{FindsFirst, Beneath};
ghost use Rattle.fab_tables.specs.Route.{route as path};
ghost use Rattle.fab_tables.specs.Starts.{StartsAt};
ghost use Rattle.fab_tables.specs.LaneFaults.{IsSoughtAt};
ghost use Rattle.fab_tables.specs.HopFaults.{fault_of_hop, fault_of_number};
ghost use Rattle.fab_tables.specs.Judged.{AreJudged, IsRoomFor};

use crate::lane_faults::LaneFaults;
use crate::lanes::Lanes;
use crate::marks::Marks;
use crate::route_hops::hops;
use crate::starts::Start;
use crate::tables::Tables;
use crate::verdict::{Verdict, VirtualChannel};
use fab_model::{Fabric, Lid, SwitchId};

/// The first fault on the route from a start to a LID, for packets of this level. Without one the switches of
/// the route are marked up to one that was marked before. With maps of pairs of ports the hop that leaves such a
/// switch depends on the port by which the packets come, and so does whether the number of the next is above its
/// own; the walk ends behind that one.
pub(crate) fn first_hop_fault(
    fabric: &Fabric,
    tables: &Tables,
    lanes: &Lanes,
    faults: LaneFaults,
    lid: Lid,
    start: Start,
    level: u8,
    marks: &mut Marks,
) -> Option<Verdict>
    requires starts { StartsAt fabric.now tables.now lanes.now lid.0 start level }
    requires reaches { (path fabric.now tables.now start.switch.0 lid.0).end ≡ delivery }
    requires judged { AreJudged faults fabric.now tables.now lanes.now lid.0 marks.old }
    ensures fault { FindsFirst (Beneath (1 ∷ lid.0 ∷ start.switch.0 ∷ start.port ∷ []) (IsSoughtAt faults fabric.now tables.now lanes.now)) result }
    ensures judged { result ≡ None → AreJudged faults fabric.now tables.now lanes.now lid.0 marks.new }
    ensures room { IsRoomFor fabric.now marks.new }
{
    let mut before = None;
    // whether the hops behind the next one are judged already
    let mut is_judged = false;
    for hop in hops(fabric, tables, lanes, start, lid, level) {
        let at = fabric.channel(hop.channel).tail;
        let fault = hop_fault(lanes, faults, lid, start.switch, at, before, hop);
        if fault.is_some() {
            return fault;
        }
        if is_judged {
            return None;
        }
        is_judged = marks.is_marked(at, level);
        if is_judged && lanes.pairs() == 0 {
            return None;
        }
        marks.mark(at, level);
        before = Some(hop);
    }
    None
}

/// The fault of a hop that leaves this switch, if it has one: a lane that isn't below the lane count, no
/// number, or one that isn't above that of the hop before.
fn hop_fault(
    lanes: &Lanes,
    faults: LaneFaults,
    lid: Lid,
    source: SwitchId,
    at: SwitchId,
    before: Option<VirtualChannel>,
    hop: VirtualChannel,
) -> Option<Verdict>
    requires lanes { AreLaneTables lanes.now }
    requires hop { hop.channel.0 < lanes.now.channels }
    requires before { IfSome before (λ first. (first.channel.0 < lanes.now.channels) × (first.lane < 15)) }
    ensures { result ≡ fault_of_hop faults lanes.now lid source at before hop }
{
    if hop.lane >= lanes.count() {
        return Some(Verdict::BadLane { lid, source, at });
    }
    match faults {
        LaneFaults::Structural => None,
        LaneFaults::Every => number_fault(lanes, lid, source, before, hop),
    }
}

/// The fault of a hop's number.
fn number_fault(
    lanes: &Lanes,
    lid: Lid,
    source: SwitchId,
    before: Option<VirtualChannel>,
    hop: VirtualChannel,
) -> Option<Verdict>
    requires hop { (hop.channel.0 < lanes.now.channels) × (hop.lane < 15) }
    requires before { IfSome before (λ first. (first.channel.0 < lanes.now.channels) × (first.lane < 15)) }
    ensures { result ≡ fault_of_number lanes.now lid source before hop }
{
    let number = lanes.number(hop.channel, hop.lane);
    if number == 0 {
        return Some(Verdict::NoNumber {
            lid,
            source,
            at: hop,
        });
    }
    let first = before?;
    let first_number = lanes.number(first.channel, first.lane);
    if number > first_number {
        return None;
    }
    Some(Verdict::NotRising {
        lid,
        source,
        first,
        second: hop,
        first_number,
        second_number: number,
    })
}
