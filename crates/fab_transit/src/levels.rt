//! Whether both plans have a level for each source and each LID connected to it.
//!
//! It takes a step for each start and LID, and no memory.

ghost use Rattle.std.specs.Prelude.{◌≡◌, ◌<◌, length, MatchOption};
ghost use Rattle.fab_model.specs.Connected.{IsConnectedTo};
ghost use Rattle.fab_tables.specs.First.{IsFirst};
ghost use Rattle.fab_tables.specs.Fit.{IsSource};
ghost use Rattle.fab_transit.specs.Answers.{IsFaultAt};
ghost use Rattle.fab_transit.specs.Levels.{HasAllLevels, HasLevelsFor, HasLevelsAt, IsFirstFor, IsFirstAt};
ghost use Rattle.fab_transit.specs.Standing.{AreStanding};

use crate::mixed::{Mixed, Side};
use crate::plans::Plans;
use fab_model::{Lid, SwitchId};
use fab_tables::{Components, Start};

/// The first missing level, by LID, source and plan.
pub(crate) fn first_missing_level(
    plans: &Plans,
    components: &Components,
    starts: &[Start],
) -> Option<Mixed>
    requires components { components.now ≡ plans.now.fabric }
    requires starts { AreStanding plans.now.fabric plans.now.change starts.now }
    ensures { MatchOption result (HasAllLevels plans.now.fabric plans.now.change) (IsFirst (IsFaultAt plans.now.fabric plans.now.change)) }
{
    for lid in plans.fabric().lids_in_use() {
        let missing = missing_for(plans, *lid, components, starts);
        if missing.is_some() {
            return missing;
        }
    }
    None
}

/// The first missing level for a LID.
fn missing_for(plans: &Plans, lid: Lid, components: &Components, starts: &[Start]) -> Option<Mixed>
    requires components { components.now ≡ plans.now.fabric }
    requires starts { AreStanding plans.now.fabric plans.now.change starts.now }
    ensures { MatchOption result (HasLevelsFor plans.now.fabric plans.now.change lid.0) (IsFirstFor plans.now.fabric plans.now.change lid) }
{
    let home = plans.fabric().place_of(lid)?.switch;
    for start in starts {
        if components.are_connected(start.switch, home) {
            let missing = missing_at(plans, lid, start.switch);
            if missing.is_some() {
                return missing;
            }
        }
    }
    None
}

/// The first plan's missing level for a source and a LID connected to it.
fn missing_at(plans: &Plans, lid: Lid, source: SwitchId) -> Option<Mixed>
    requires source { IsSource plans.now.fabric source.0 }
    requires low { source.0 < length plans.now.fabric.switches }
    requires connected { IsConnectedTo plans.now.fabric source.0 lid.0 }
    ensures { MatchOption result (HasLevelsAt plans.now.fabric plans.now.change lid.0 source.0) (IsFirstAt plans.now.fabric plans.now.change lid source) }
{
    if plans.level(Side::Old, source, lid).is_none() {
        let side = Side::Old;
        return Some(Mixed::NoLevel { lid, source, side });
    }
    if plans.level(Side::New, source, lid).is_none() {
        let side = Side::New;
        return Some(Mixed::NoLevel { lid, source, side });
    }
    None
}
