//! Two switches with a terminal at the first: a switch that answers, and a reply on a bad lane. And a ring of three switches,
//! each with a terminal, where packets close no ring, but packets and replies do.
use crate::fabrics::{RING_OF_THREE, TWO_SWITCHES, fabric_of};
use crate::plans::{number, plan_of, set_lane, set_level};
use fab_certify::{Certified, certify};
use fab_model::{Fabric, Lid, SwitchId};
use fab_replies::{Replied, replies};
use fab_tables::{Lanes, Plan};
use std::alloc::{AllocError, Global};
use std::process::Abort;
use std::test::Fail;

const OF_TWO_SWITCHES: [u8; 6] = [0, 1, 2, 1, 0, 1];

#[test]
fn a_switch_that_answers_is_numbered(rt: HostRuntime) -> Result<(), Fail> {
    let fabric = fabric_of(&rt, rt.alloc(), 2, 3, &TWO_SWITCHES)?;
    let plan = plan_of(&rt, rt.alloc(), &fabric, &OF_TWO_SWITCHES)?;
    assert!(rt; plan.fits(&fabric));
    let lanes = match replies(rt.alloc(), &fabric, &plan)? {
        Replied::Numbers(lanes) => Some(lanes),
        _ => None,
    };
    let both = Plan {
        tables: plan.tables,
        lanes,
    };
    for channel in 0..2 {
        assert_eq!(rt; number(&rt, &fabric, &both, channel, 0), 1);
    }
    Ok(())
}

#[test]
fn a_reply_has_a_bad_lane(rt: HostRuntime) -> Result<(), Fail> {
    let fabric = fabric_of(&rt, rt.alloc(), 2, 3, &TWO_SWITCHES)?;
    let mut plan = plan_of(&rt, rt.alloc(), &fabric, &OF_TWO_SWITCHES)?;
    plan.lanes = Some(Lanes::new(rt.alloc(), &fabric, 1)?);
    for index in 0..3 {
        set_level(&rt, &fabric, &mut plan, (0, index), 0);
    }
    set_lane(&rt, &fabric, &mut plan, 0, 0);
    assert!(rt; plan.fits(&fabric));
    let fault = match replies(rt.alloc(), &fabric, &plan)? {
        Replied::BadLane { lid, from, at } => Some((lid, from, at)),
        _ => None,
    };
    assert_eq!(rt; fault, Some((Lid(3), Lid(2), SwitchId(1))));
    Ok(())
}

// Each packet goes on by port 1.
const ROUND_THE_RING: [u8; 18] = [
    0, 1, 1, 3, 1, 1, //
    1, 0, 1, 1, 3, 1, //
    1, 1, 0, 1, 1, 3, //
];

// Packets from switch 2 to switch 1 have level 1, all others level 0; each level has its own lane.
fn round_the_ring(rt: &impl Abort, alloc: Global, fabric: &Fabric) -> Result<Plan, AllocError> {
    let mut plan = plan_of(rt, alloc, fabric, &ROUND_THE_RING)?;
    plan.lanes = Some(Lanes::new(alloc, fabric, 2)?);
    for switch in 0..3 {
        set_lane(rt, fabric, &mut plan, switch, 0);
        set_lane(rt, fabric, &mut plan, switch, 1);
        for index in 0..6 {
            let level = u8::from(switch == 2 && index % 3 == 1);
            set_level(rt, fabric, &mut plan, (switch, index), level);
        }
    }
    Ok(plan)
}

// No packet goes on from switch 2 to switch 1 on lane 0, so packets close no ring. Replies to the terminal at switch 1
// do: it asks at level 0.
#[test]
fn replies_close_a_ring(rt: HostRuntime) -> Result<(), Fail> {
    let fabric = fabric_of(&rt, rt.alloc(), 3, 6, &RING_OF_THREE)?;
    let plan = round_the_ring(&rt, rt.alloc(), &fabric)?;
    assert!(rt; plan.fits(&fabric));
    let certified = certify(rt.alloc(), &fabric, &plan)?;
    assert!(rt; matches!(certified, Certified::Numbers(_)));
    let answer = replies(rt.alloc(), &fabric, &plan)?;
    let is_ring =
        matches!(&answer, Replied::RingReplies(ring) if ring.nodes() == [0, 4, 8].as_slice());
    assert!(rt; is_ring);
    Ok(())
}
