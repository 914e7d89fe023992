//! The first fault of a plan's lanes: a source without a service level, a lane that isn't below the lane count,
//! a virtual channel without a number, or a number that isn't above that of the hop before.
//!
//! Each route is an order of virtual channels; numbers that rise along all of them show that no packets wait
//! for each other in a ring (Dally and Seitz). LIDs are taken in order, and for each the starts of packets.
//! What follows behind a switch depends on the switch and the level alone, so it is judged once for a LID:
//! the time is that of a hop for each LID, switch and level in use, and of one more for each LID and start, two
//! where pairs of ports have maps. It takes no memory but the marks, a byte for each switch and level.
ghost use Rattle.std.specs.Prelude.{◌≡◌, ◌<◌, ◌∷◌, [], None, Some, IsSome, length};
ghost use Rattle.fab_model.specs.Connected.{IsConnectedTo};
ghost use Rattle.fab_tables.specs.Fit.{EntriesFit, LanesFit};
ghost use Rattle.fab_tables.specs.Certified.{Reaches};
ghost use Rattle.fab_tables.specs.LaneTables.{level as level_of};
ghost use Rattle.fab_tables.specs.First.{FindsFirst, Beneath};
ghost use Rattle.fab_tables.specs.Reaching.{IsToward};
ghost use Rattle.fab_tables.specs.Starts.{IsOfTerminal, AreStartsFor, AreAllStarts};
ghost use Rattle.fab_tables.specs.LaneFaults.{IsSoughtAt};
ghost use Rattle.fab_tables.specs.Judged.{IsRoomFor, AreJudged};

use crate::components::Components;
use crate::judging::first_hop_fault;
use crate::lanes::Lanes;
use crate::marks::Marks;
use crate::starts::{Start, Starts};
use crate::tables::Tables;
use crate::verdict::Verdict;
use fab_model::{Fabric, Lid};

/// Which faults of lanes are looked for.
#[derive(Clone, Copy, PartialEq, Eq, Debug, Drop)]
pub enum LaneFaults {
    /// Every one: levels, lanes and numbers.
    Every,
    /// Those alone that no numbers can mend: levels and lanes.
    Structural,
}

/// The first fault of a plan's lanes, by LID and then by source connected to it, where all routes are
/// delivered. For each LID it takes a hop for each switch and level in use, and one more for each start, two
/// where pairs of ports have maps; without them one start a source is looked at.
pub fn first_lane_fault(
    fabric: &Fabric,
    tables: &Tables,
    lanes: &Lanes,
    faults: LaneFaults,
    components: &Components,
    starts: &Starts,
    marks: &mut Marks,
) -> Option<Verdict>
    requires tables { EntriesFit fabric.now tables.now }
    requires lanes { LanesFit fabric.now lanes.now }
    requires reaches { Reaches fabric.now tables.now }
    requires components { components.now ≡ fabric.now }
    requires starts { AreAllStarts fabric.now starts.now }
    requires room { IsRoomFor fabric.now marks.old }
    ensures fault { FindsFirst (IsSoughtAt faults fabric.now tables.now lanes.now) result }
    ensures room { IsRoomFor fabric.now marks.new }
{
    let starts = starts.standing(lanes);
    for lid in fabric.lids_in_use() {
        let fault = fault_for(
            fabric, tables, lanes, faults, *lid, components, starts, marks,
        );
        if fault.is_some() {
            return fault;
        }
    }
    None
}

/// The first fault of the lanes on routes to a LID, by source connected to it and then by terminal's port.
fn fault_for(
    fabric: &Fabric,
    tables: &Tables,
    lanes: &Lanes,
    faults: LaneFaults,
    lid: Lid,
    components: &Components,
    starts: &[Start],
    marks: &mut Marks,
) -> Option<Verdict>
    requires toward { IsToward fabric.now tables.now lid.0 }
    requires lanes { LanesFit fabric.now lanes.now }
    requires reaches { Reaches fabric.now tables.now }
    requires components { components.now ≡ fabric.now }
    requires starts { AreStartsFor fabric.now lanes.now starts.now }
    requires room { IsRoomFor fabric.now marks.old }
    ensures fault { FindsFirst (Beneath (1 ∷ lid.0 ∷ []) (IsSoughtAt faults fabric.now tables.now lanes.now)) result }
    ensures room { IsRoomFor fabric.now marks.new }
{
    let home = fabric.place_of(lid)?.switch;
    marks.clear();
    for start in starts {
        if components.are_connected(start.switch, home) {
            let fault = fault_from(fabric, tables, lanes, faults, lid, *start, marks);
            if fault.is_some() {
                return fault;
            }
        }
    }
    None
}

/// The first fault that packets from a start to a LID meet: no level, or one of a hop. Without one, the
/// switches of the route are marked.
fn fault_from(
    fabric: &Fabric,
    tables: &Tables,
    lanes: &Lanes,
    faults: LaneFaults,
    lid: Lid,
    start: Start,
    marks: &mut Marks,
) -> Option<Verdict>
    requires toward { IsToward fabric.now tables.now lid.0 }
    requires lanes { LanesFit fabric.now lanes.now }
    requires reaches { Reaches fabric.now tables.now }
    requires terminal { IsOfTerminal fabric.now start }
    requires connected { IsConnectedTo fabric.now start.switch.0 lid.0 }
    requires judged { AreJudged faults fabric.now tables.now lanes.now lid.0 marks.old }
    ensures no_level { level_of lanes.now start.switch.0 lid.0 ≡ None → result ≡ Some (Verdict.NoLevel lid start.switch) }
    ensures hops { IsSome (level_of lanes.now start.switch.0 lid.0) → FindsFirst (Beneath (1 ∷ lid.0 ∷ start.switch.0 ∷ start.port ∷ []) (IsSoughtAt faults fabric.now tables.now lanes.now)) result }
    ensures judged { result ≡ None → AreJudged faults fabric.now tables.now lanes.now lid.0 marks.new }
    ensures room { IsRoomFor fabric.now marks.new }
{
    let Some(level) = lanes.level(start.switch, lid) else {
        return Some(Verdict::NoLevel {
            lid,
            source: start.switch,
        });
    };
    if lanes.pairs() == 0 && marks.is_marked(start.switch, level) {
        return None;
    }
    first_hop_fault(fabric, tables, lanes, faults, lid, start, level, marks)
}
