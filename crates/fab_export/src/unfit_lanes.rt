//! Why the lanes of a plan can't be written: by its maps, of which all switches must have one, and by its levels.
//!
//! It takes the time to find the levels in use, and 16 looks at each switch; no memory.
ghost use Rattle.std.specs.Prelude.{◌≡◌, ◌<◌, length, map};
ghost use Rattle.fab_model.specs.Topology.{Topology};
ghost use Rattle.fab_tables.specs.Entries.{Entries};
ghost use Rattle.fab_tables.specs.LaneTables.{LaneTables};
ghost use Rattle.fab_tables.specs.Fit.{LanesFit};
ghost use Rattle.fab_export.specs.LevelsInUse.{all_levels, is_in_use};
ghost use Rattle.fab_export.specs.Unfits.{own_map, has_first_map, other_map, high_lane, no_level_0, no_spare, lanes_unfit};

use crate::fault::Unfit;
use crate::reached::Reached;
use crate::used_levels::used_levels;
use fab_model::SwitchId;
use fab_tables::Lanes;

/// The most lanes of a port on the market.
const MOST_LANES: u8 = 8;

/// The first reason against the lanes of a plan: its maps, and then its levels.
pub(crate) fn unfit_lanes(reached: &Reached, lanes: &Lanes) -> Option<Unfit>
    requires { LanesFit reached.now.fabric lanes.now }
    ensures { result ≡ lanes_unfit reached.now.fabric reached.now.entries lanes.now }
{
    let used = used_levels(reached, lanes);
    own_map(lanes)
        .or(other_map(lanes, reached.fabric().switches()))
        .or(high_lane(lanes, &used))
        .or(no_level_zero(&used))
        .or(no_spare(&used))
}

/// The first pair of ports that has a map of its own.
fn own_map(lanes: &Lanes) -> Option<Unfit>
    ensures { result ≡ own_map lanes.now }
{
    let row = lanes.pair_at(0)?;
    Some(Unfit::PairMap {
        switch: row.switch,
        from_port: row.from_port,
        to_port: row.to_port,
    })
}

/// The first of the switches whose general map isn't that of the first switch.
fn other_map(lanes: &Lanes, switches: u32) -> Option<Unfit>
    requires { switches ≡ lanes.now.switches }
    ensures { (t : Topology) → switches ≡ length t.switches → result ≡ other_map t lanes.now }
{
    for number in 0..switches {
        let switch = SwitchId(number);
        if !has_first_map(lanes, switch) {
            return Some(Unfit::MapDiffers { switch });
        }
    }
    None
}

/// Whether the general map of a switch is that of the first switch.
fn has_first_map(lanes: &Lanes, switch: SwitchId) -> bool
    requires { switch.0 < lanes.now.switches }
    ensures { result ≡ has_first_map lanes.now switch.0 }
{
    for level in 0..16 {
        if lanes.lane(switch, level) != lanes.lane(SwitchId(0), level) {
            return false;
        }
    }
    true
}

/// The least level in use whose lane isn't below the lane count, or below 8 where that is less.
fn high_lane(lanes: &Lanes, used: &[bool; 16]) -> Option<Unfit>
    requires { 0 < lanes.now.switches }
    ensures { (t : Topology) (e : Entries) → used.now ≡ map (is_in_use t e lanes.now) all_levels → result ≡ high_lane t e lanes.now }
{
    let bound = lanes.count().min(MOST_LANES);
    for level in 0..16u8 {
        let lane = lanes.lane(SwitchId(0), level);
        if used[usize::from(level)] && lane >= bound {
            return Some(Unfit::HighLane { level, lane, bound });
        }
    }
    None
}

/// Whether level 0 isn't in use.
fn no_level_zero(used: &[bool; 16]) -> Option<Unfit>
    ensures { (t : Topology) (e : Entries) (l : LaneTables) → used.now ≡ map (is_in_use t e l) all_levels → result ≡ no_level_0 t e l }
{
    (!used[0]).then_some(Unfit::NoLevelZero)
}

/// Whether every level is in use.
fn no_spare(used: &[bool; 16]) -> Option<Unfit>
    ensures { (t : Topology) (e : Entries) (l : LaneTables) → used.now ≡ map (is_in_use t e l) all_levels → result ≡ no_spare t e l }
{
    for is_used in used {
        if !*is_used {
            return None;
        }
    }
    Some(Unfit::NoSpareLevel)
}
