//! The levels in use, and what is written for all switches by them: the map and the spare level.
//!
//! They are found in one pass over sources and LIDs; no memory.
ghost use Rattle.std.specs.Prelude.{◌≡◌, ◌<◌, ◌||◌, ℕ, false, length, map, IfSome, Contains, slice_index_or};
ghost use Rattle.fab_model.specs.Topology.{Topology, lids_of};
ghost use Rattle.fab_tables.specs.Entries.{Entries};
ghost use Rattle.fab_tables.specs.LaneTables.{LaneTables};
ghost use Rattle.fab_tables.specs.Fit.{LanesFit};
ghost use Rattle.fab_export.specs.LevelsInUse.{level_to, is_level_of, all_levels, is_in_use, written_map, spare_level};

use crate::reached::Reached;
use fab_model::{Lid, SwitchId};
use fab_tables::Lanes;

/// The level of a source for a LID that it reaches; none elsewhere.
pub(crate) fn level_to(reached: &Reached, lanes: &Lanes, source: SwitchId, lid: Lid) -> Option<u8>
    requires lanes { LanesFit reached.now.fabric lanes.now }
    requires switch { source.0 < length reached.now.fabric.switches }
    requires lid { Contains (lids_of reached.now.fabric) lid.0 }
    ensures level { result ≡ level_to reached.now.fabric reached.now.entries lanes.now source.0 lid.0 }
    ensures low { IfSome result (λ n. n < 16) }
{
    if reached.reaches(source, lid) {
        lanes.level(source, lid)
    } else {
        None
    }
}

/// Whether some source has a level at a LID that it reaches: for each of the 16 levels.
pub(crate) fn used_levels(reached: &Reached, lanes: &Lanes) -> [bool; 16]
    requires { LanesFit reached.now.fabric lanes.now }
    ensures { result ≡ map (is_in_use reached.now.fabric reached.now.entries lanes.now) all_levels }
{
    let fabric = reached.fabric();
    let mut used = [false; 16];
    for switch in 0..fabric.switches() {
        let source = SwitchId(switch);
        if fabric.has_terminal(source) {
            mark_levels(reached, lanes, source, &mut used);
        }
    }
    used
}

/// Marks the levels that a source has at the LIDs that it reaches.
fn mark_levels(reached: &Reached, lanes: &Lanes, source: SwitchId, used: &mut [bool; 16])
    requires lanes { LanesFit reached.now.fabric lanes.now }
    requires switch { source.0 < length reached.now.fabric.switches }
    ensures { (level : ℕ) → level < 16 →
        slice_index_or used.new level false ≡ (slice_index_or used.old level false || is_level_of reached.now.fabric reached.now.entries lanes.now source.0 level) }
{
    for lid in reached.lids() {
        if let Some(level) = level_to(reached, lanes, source, *lid) {
            used[usize::from(level)] = true;
        }
    }
}

/// The lane of each of the 16 levels as it is written for all switches: that of the first switch where the level is in
/// use, else 15, by which packets are dropped.
pub(crate) fn written_map_of(lanes: &Lanes, used: &[bool; 16]) -> [u8; 16]
    requires { 0 < lanes.now.switches }
    ensures { (t : Topology) (e : Entries) → used.now ≡ map (is_in_use t e lanes.now) all_levels → result ≡ written_map t e lanes.now }
{
    let mut written = [15; 16];
    for level in 0..16u8 {
        if used[usize::from(level)] {
            written[usize::from(level)] = lanes.lane(SwitchId(0), level);
        }
    }
    written
}

/// The greatest level that is not in use; 0 where all are.
pub(crate) fn spare_level_of(used: &[bool; 16]) -> u8
    ensures { (t : Topology) (e : Entries) (l : LaneTables) → used.now ≡ map (is_in_use t e l) all_levels → result ≡ spare_level t e l }
{
    let mut spare = 0;
    for level in 0..16u8 {
        if !used[usize::from(level)] {
            spare = level;
        }
    }
    spare
}
