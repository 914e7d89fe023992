//! Single statements of a plan text, given to the plan: a port, a level, a lane map, a number, the map of a
//! pair.
ghost use Rattle.std.specs.Prelude.{◌≡◌, ◌<◌, ◌≤◌, All, Contains, IfSome, IfOk, OnOk, IsErrOf, Some, length, nat_lt};
ghost use Rattle.fab_tables.specs.LaneTables.{LaneTables, HasRoomFor, with_pair_row};
ghost use Rattle.fab_dump.specs.Given.{plan_with, with_lanes};
ghost use Rattle.fab_dump.specs.Given.Given.{Port, Level, Map, PairMap, Number};

use fab_model::{ChannelId, Lid, SwitchId};
use fab_tables::{Lanes, PairFault, PairRow, Plan};

/// Gives a switch this port for a LID.
pub(crate) fn give_port(plan: &mut Plan, switch: SwitchId, lid: Lid, port: u8)
    requires switch { switch.0 < plan.old.tables.switches }
    requires in_use { Contains plan.old.tables.in_use lid.0 }
    ensures { plan.new ≡ plan_with plan.old (Port switch.0 lid.0 port) }
{
    plan.tables.set(switch, lid, port);
}

/// Gives a switch this level for a LID, where the plan has lanes.
pub(crate) fn give_level(plan: &mut Plan, switch: SwitchId, lid: Lid, level: Option<u8>)
    requires switch { IfSome plan.old.lanes (λ l. switch.0 < l.switches) }
    requires in_use { IfSome plan.old.lanes (λ l. Contains l.in_use lid.0) }
    requires level { IfSome level (λ n. n < 16) }
    ensures { plan.new ≡ plan_with plan.old (Level switch.0 lid.0 level) }
{
    if let Some(lanes) = &mut plan.lanes {
        lanes.set_level(switch, lid, level);
    }
}

fn set_map(lanes: &mut Lanes, switch: SwitchId, map: &[u8; 16])
    requires switch { switch.0 < lanes.old.switches }
    requires map { All (λ lane. lane < 16) map.now }
    ensures { lanes.new ≡ with_lanes lanes.old switch.0 0 map.now }
{
    for level in 0..16 {
        lanes.set_lane(switch, level, map[usize::from(level)]);
    }
}

/// Gives a switch this lane map, where the plan has lanes.
pub(crate) fn give_map(plan: &mut Plan, switch: SwitchId, map: &[u8; 16])
    requires switch { IfSome plan.old.lanes (λ l. switch.0 < l.switches) }
    requires map { All (λ lane. lane < 16) map.now }
    ensures { plan.new ≡ plan_with plan.old (Map switch.0 map.now) }
{
    if let Some(lanes) = &mut plan.lanes {
        set_map(lanes, switch, map);
    }
}

/// Gives a channel's data lane this number, where the plan has lanes.
pub(crate) fn give_number(plan: &mut Plan, channel: ChannelId, lane: u8, number: u32)
    requires channel { IfSome plan.old.lanes (λ l. channel.0 < l.channels) }
    requires lane { lane < 15 }
    ensures { plan.new ≡ plan_with plan.old (Number channel.0 lane number) }
{
    if let Some(lanes) = &mut plan.lanes {
        lanes.set_number(channel, lane, number);
    }
}

/// Gives a pair of ports of a switch this map, where the plan has lanes. Whether the pair had none before.
pub(crate) fn give_pair(plan: &mut Plan, row: PairRow) -> Result<bool, PairFault>
    requires switch { IfSome plan.old.lanes (λ l. row.switch.0 < l.switches) }
    requires map { All (λ lane. lane < 16) row.map }
    ensures ok { OnOk result (plan.new ≡ plan_with plan.old (PairMap row)) }
    ensures fresh { (l : LaneTables) → plan.old.lanes ≡ Some l → IfOk result (λ fresh. fresh ≡ nat_lt (length l.pairs) (length (with_pair_row l.pairs row))) }
    ensures room { OnOk result (IfSome plan.old.lanes (λ l. HasRoomFor l row)) }
    ensures too_many { IsErrOf result PairFault.TooMany → IfSome plan.old.lanes (λ l. ¬ HasRoomFor l row) }
{
    match &mut plan.lanes {
        Some(lanes) => {
            let before = lanes.pairs();
            lanes.set_pair(row)?;
            Ok(before < lanes.pairs())
        }
        None => Ok(true),
    }
}
