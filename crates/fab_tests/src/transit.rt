//! Two plans for a ring of three switches, with packets under both at once.
use crate::fabrics::{RING_OF_THREE, fabric_of};
use crate::plans::{number, plan_of, set_entry};
use fab_model::{Fabric, Lid, SwitchId};
use fab_tables::{End, Lanes, Plan};
use fab_transit::{Mixed, Side, transit};
use std::alloc::{AllocError, Global};
use std::process::Abort;
use std::test::Fail;

// From each switch, the port for each LID: along the line 0, 1, 2.
const ALONG_THE_LINE: [u8; 18] = [
    0, 1, 1, 3, 1, 1, //
    2, 0, 1, 2, 3, 1, //
    2, 2, 0, 2, 2, 3, //
];

// The short way round, but packets from switch 1 to LID 1 go by switch 2.
const BY_SWITCH_2: [u8; 18] = [
    0, 1, 2, 3, 1, 2, //
    1, 0, 1, 2, 3, 1, //
    1, 2, 0, 1, 2, 3, //
];

// The short way round, but packets from switch 2 to LID 1 go by switch 1.
const BY_SWITCH_1: [u8; 18] = [
    0, 1, 2, 3, 1, 2, //
    2, 0, 1, 2, 3, 1, //
    2, 2, 0, 1, 2, 3, //
];

fn changed(
    rt: &impl Abort,
    alloc: Global,
    fabric: &Fabric,
    old: &Plan,
    new: &Plan,
) -> Result<Mixed, AllocError> {
    assert!(rt; old.fits(fabric));
    assert!(rt; new.fits(fabric));
    transit(alloc, fabric, old, new)
}

#[test]
fn one_plan_as_both_has_numbers(rt: HostRuntime) -> Result<(), Fail> {
    let fabric = fabric_of(&rt, rt.alloc(), 3, 6, &RING_OF_THREE)?;
    let plan = plan_of(&rt, rt.alloc(), &fabric, &ALONG_THE_LINE)?;
    let lanes = match changed(&rt, rt.alloc(), &fabric, &plan, &plan)? {
        Mixed::Numbers(lanes) => Some(lanes),
        _ => None,
    };
    let both = Plan {
        tables: plan.tables,
        lanes,
    };
    for (channel, wanted) in [(0, 1), (1, 0), (2, 2), (3, 2), (4, 0), (5, 1)] {
        assert_eq!(rt; number(&rt, &fabric, &both, channel, 0), wanted);
    }
    Ok(())
}

#[test]
fn two_good_plans_make_a_ring(rt: HostRuntime) -> Result<(), Fail> {
    let fabric = fabric_of(&rt, rt.alloc(), 3, 6, &RING_OF_THREE)?;
    let old = plan_of(&rt, rt.alloc(), &fabric, &BY_SWITCH_2)?;
    let new = plan_of(&rt, rt.alloc(), &fabric, &BY_SWITCH_1)?;
    let answer = changed(&rt, rt.alloc(), &fabric, &old, &new)?;
    let is_ring = matches!(&answer, Mixed::RingMixed(ring) if ring.nodes() == [2, 5].as_slice());
    assert!(rt; is_ring);
    Ok(())
}

#[test]
fn faults_come_in_order(rt: HostRuntime) -> Result<(), Fail> {
    let fabric = fabric_of(&rt, rt.alloc(), 3, 6, &RING_OF_THREE)?;
    let old = plan_of(&rt, rt.alloc(), &fabric, &ALONG_THE_LINE)?;
    let mut new = plan_of(&rt, rt.alloc(), &fabric, &ALONG_THE_LINE)?;
    set_entry(&rt, &fabric, &mut new, (1, 2), 255);
    let fault = match changed(&rt, rt.alloc(), &fabric, &old, &new)? {
        Mixed::Lost { lid, at, side, end } => Some((lid, at, side, end)),
        _ => None,
    };
    assert_eq!(rt; fault, Some((Lid(3), SwitchId(1), Side::New, End::NoEntry)));
    new.lanes = Some(Lanes::new(rt.alloc(), &fabric, 1)?);
    let fault = match changed(&rt, rt.alloc(), &fabric, &new, &old)? {
        Mixed::NoLevel { lid, source, side } => Some((lid, source, side)),
        _ => None,
    };
    assert_eq!(rt; fault, Some((Lid(1), SwitchId(0), Side::Old)));
    Ok(())
}
