//! Plans that are written entry by entry, and what stands in a plan.
ghost use Rattle.std.specs.Prelude.{◌<◌, Contains};
ghost use Rattle.fab_model.specs.Topology.{lids_of};

use fab_model::{ChannelId, Fabric, Lid, SwitchId};
use fab_tables::{Plan, Tables};
use std::alloc::{AllocError, Global};
use std::process::Abort;

/// The LID at a place of the ascending list of those in use.
#[tactic(auto, using(fab_tables::proofs::Joined::Ascending::lid_in_use))]
pub fn nth_lid(rt: &impl Abort, fabric: &Fabric, index: u32) -> Lid
    ensures { Contains (lids_of fabric.now) result.0 }
{
    fabric.lid_at(index).expect(rt, "a LID")
}

/// The port of a switch for the LID at a place of their list.
pub fn set_entry(rt: &impl Abort, fabric: &Fabric, plan: &mut Plan, at: (u32, u32), port: u8) {
    let (switch, index) = at;
    assert!(rt; plan.fits(fabric));
    assert!(rt; switch < fabric.switches());
    let lid = nth_lid(rt, fabric, index);
    plan.tables.set(SwitchId(switch), lid, port);
}

/// A plan without lanes: the port of each switch for each LID, switch by switch.
pub fn plan_of(
    rt: &impl Abort,
    alloc: Global,
    fabric: &Fabric,
    ports: &[u8],
) -> Result<Plan, AllocError> {
    let mut plan = Plan {
        tables: Tables::new(alloc, fabric)?,
        lanes: None,
    };
    let lids = fabric.lids();
    let mut place = 0;
    for port in ports {
        assert!(rt; 0 < lids && place < 100);
        set_entry(rt, fabric, &mut plan, (place / lids, place % lids), *port);
        place += 1;
    }
    Ok(plan)
}

/// The level of a switch for the LID at a place of their list.
pub fn set_level(rt: &impl Abort, fabric: &Fabric, plan: &mut Plan, at: (u32, u32), level: u8)
    requires { level < 16 }
{
    let (switch, index) = at;
    assert!(rt; plan.fits(fabric));
    assert!(rt; switch < fabric.switches());
    let lid = nth_lid(rt, fabric, index);
    if let Some(lanes) = &mut plan.lanes {
        lanes.set_level(SwitchId(switch), lid, Some(level));
    }
}

/// At a switch the level of this number goes on the lane of this number.
pub fn set_lane(rt: &impl Abort, fabric: &Fabric, plan: &mut Plan, switch: u32, number: u8)
    requires { number < 15 }
{
    assert!(rt; plan.fits(fabric));
    assert!(rt; switch < fabric.switches());
    if let Some(lanes) = &mut plan.lanes {
        lanes.set_lane(SwitchId(switch), number, number);
    }
}

/// The level of a switch for a LID, where the plan has lanes.
pub fn level(rt: &impl Abort, fabric: &Fabric, plan: &Plan, switch: u32, lid: u16) -> Option<u8> {
    assert!(rt; plan.fits(fabric));
    assert!(rt; switch < fabric.switches());
    match &plan.lanes {
        Some(lanes) => lanes.level(SwitchId(switch), Lid(lid)),
        None => None,
    }
}

/// The number of a virtual channel; 0 where the plan has no lanes.
pub fn number(rt: &impl Abort, fabric: &Fabric, plan: &Plan, channel: u32, lane: u8) -> u32 {
    assert!(rt; plan.fits(fabric));
    assert!(rt; channel < fabric.channels() && lane < 15);
    match &plan.lanes {
        Some(lanes) => lanes.number(ChannelId(channel), lane),
        None => 0,
    }
}
