//! Verdicts on a plan without lanes and on one with a map for a pair of ports, for three switches in a row.
ghost use Rattle.std.specs.Prelude.{◌<◌, ◌≤◌};

use crate::fabrics::{THREE_IN_A_ROW, fabric_of};
use crate::plans::{plan_of, set_lane, set_level};
use fab_check::Checker;
use fab_model::{ChannelId, Fabric, Lid, SwitchId};
use fab_tables::{Lanes, PairRow, Plan, Verdict, VirtualChannel};
use std::alloc::{AllocError, Global};
use std::process::Abort;
use std::test::Fail;

fn set_number(rt: &impl Abort, fabric: &Fabric, plan: &mut Plan, at: (u32, u8), number: u32) {
    let (channel, lane) = at;
    assert!(rt; plan.fits(fabric));
    assert!(rt; channel < fabric.channels() && lane < 15);
    if let Some(lanes) = &mut plan.lanes {
        lanes.set_number(ChannelId(channel), lane, number);
    }
}

fn set_pair(rt: &impl Abort, fabric: &Fabric, plan: &mut Plan) {
    assert!(rt; plan.fits(fabric));
    assert!(rt; 1 < fabric.switches());
    if let Some(lanes) = &mut plan.lanes {
        let row = PairRow {
            switch: SwitchId(1),
            from_port: 1,
            to_port: 2,
            map: [
                1, 15, 15, 15, 15, 15, 15, 15, 15, 15, 15, 15, 15, 15, 15, 15,
            ],
        };
        let set = lanes.set_pair(row).is_ok();
        assert!(rt; set);
    }
}

// Shortest routes.
const ROUTES: [u8; 12] = [
    0, 1, 1, 2, //
    1, 0, 2, 1, //
    1, 1, 0, 1, //
];

// Level 0 at the first switch for all LIDs, and on lane 0 at all switches.
fn leveled(rt: &impl Abort, alloc: Global, fabric: &Fabric, count: u8) -> Result<Plan, AllocError>
    requires { (0 < count) × (count ≤ 15) }
{
    let mut plan = plan_of(rt, alloc, fabric, &ROUTES)?;
    plan.lanes = Some(Lanes::new(alloc, fabric, count)?);
    for switch in 0..3 {
        set_lane(rt, fabric, &mut plan, switch, 0);
    }
    for index in 0..4 {
        set_level(rt, fabric, &mut plan, (0, index), 0);
    }
    Ok(plan)
}

fn verdict(
    rt: &impl Abort,
    alloc: Global,
    fabric: &Fabric,
    plan: &Plan,
) -> Result<Verdict, AllocError> {
    let mut checker = Checker::new(alloc, fabric)?;
    assert!(rt; plan.fits(fabric));
    Ok(checker.check(plan))
}

fn on_lane(channel: u32, lane: u8) -> VirtualChannel {
    VirtualChannel {
        channel: ChannelId(channel),
        lane,
    }
}

// The second switch has a map of its own for what comes by port 1 and leaves by port 2.
#[test]
fn maps_of_pairs_are_used(rt: HostRuntime) -> Result<(), Fail> {
    let fabric = fabric_of(&rt, rt.alloc(), 3, 4, &THREE_IN_A_ROW)?;
    let plain = plan_of(&rt, rt.alloc(), &fabric, &ROUTES)?;
    assert_eq!(rt; verdict(&rt, rt.alloc(), &fabric, &plain)?, Verdict::Routes);
    let mut plan = leveled(&rt, rt.alloc(), &fabric, 2)?;
    set_number(&rt, &fabric, &mut plan, (0, 0), 1);
    set_number(&rt, &fabric, &mut plan, (2, 1), 2);
    let no_number = Verdict::NoNumber {
        lid: Lid(3),
        source: SwitchId(0),
        at: on_lane(2, 0),
    };
    assert_eq!(rt; verdict(&rt, rt.alloc(), &fabric, &plan)?, no_number);
    set_pair(&rt, &fabric, &mut plan);
    assert_eq!(rt; verdict(&rt, rt.alloc(), &fabric, &plan)?, Verdict::Lanes);
    Ok(())
}
