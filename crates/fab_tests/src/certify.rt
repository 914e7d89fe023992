//! Plans for a ring of three switches: numbers, a ring in use, and the first fault.
use crate::fabrics::{RING_OF_THREE, fabric_of};
use crate::plans::{number, plan_of, set_entry};
use fab_certify::{Certified, certify};
use fab_model::{Fabric, Lid, SwitchId};
use fab_tables::{End, Lanes, Plan, Verdict};
use std::alloc::{AllocError, Global};
use std::process::Abort;
use std::test::Fail;

// From each switch, the port for each LID: along the line 0, 1, 2.
const ALONG_THE_LINE: [u8; 18] = [
    0, 1, 1, 3, 1, 1, //
    2, 0, 1, 2, 3, 1, //
    2, 2, 0, 2, 2, 3, //
];

// Each packet goes on by port 1.
const ROUND_THE_RING: [u8; 18] = [
    0, 1, 1, 3, 1, 1, //
    1, 0, 1, 1, 3, 1, //
    1, 1, 0, 1, 1, 3, //
];

fn certified(
    rt: &impl Abort,
    alloc: Global,
    fabric: &Fabric,
    plan: &Plan,
) -> Result<Certified, AllocError> {
    assert!(rt; plan.fits(fabric));
    certify(alloc, fabric, plan)
}

fn fault_of(answer: Certified) -> Option<Verdict> {
    match answer {
        Certified::Refused(fault) => Some(fault),
        _ => None,
    }
}

#[test]
fn numbers_rise_along_a_line(rt: HostRuntime) -> Result<(), Fail> {
    let fabric = fabric_of(&rt, rt.alloc(), 3, 6, &RING_OF_THREE)?;
    let plan = plan_of(&rt, rt.alloc(), &fabric, &ALONG_THE_LINE)?;
    let new = match certified(&rt, rt.alloc(), &fabric, &plan)? {
        Certified::Numbers(new) => Some(new),
        _ => None,
    };
    let new = new.ok_or("numbers")?;
    for (channel, wanted) in [(0, 1), (1, 0), (2, 2), (3, 2), (4, 0), (5, 1)] {
        assert_eq!(rt; number(&rt, &fabric, &new, channel, 0), wanted);
    }
    Ok(())
}

#[test]
fn routes_round_a_ring_use_it(rt: HostRuntime) -> Result<(), Fail> {
    let fabric = fabric_of(&rt, rt.alloc(), 3, 6, &RING_OF_THREE)?;
    let plan = plan_of(&rt, rt.alloc(), &fabric, &ROUND_THE_RING)?;
    let answer = certified(&rt, rt.alloc(), &fabric, &plan)?;
    let is_ring =
        matches!(&answer, Certified::RingUsed(ring) if ring.nodes() == [0, 2, 4].as_slice());
    assert!(rt; is_ring);
    Ok(())
}

#[test]
fn the_first_fault_is_refused(rt: HostRuntime) -> Result<(), Fail> {
    let fabric = fabric_of(&rt, rt.alloc(), 3, 6, &RING_OF_THREE)?;
    let mut plan = plan_of(&rt, rt.alloc(), &fabric, &ALONG_THE_LINE)?;
    plan.lanes = Some(Lanes::new(rt.alloc(), &fabric, 1)?);
    let no_level = Verdict::NoLevel {
        lid: Lid(1),
        source: SwitchId(0),
    };
    let answer = certified(&rt, rt.alloc(), &fabric, &plan)?;
    assert_eq!(rt; fault_of(answer), Some(no_level));
    set_entry(&rt, &fabric, &mut plan, (1, 2), 255);
    let unreached = Verdict::Unreached {
        lid: Lid(3),
        switch: SwitchId(0),
        end: End::NoEntry,
    };
    let answer = certified(&rt, rt.alloc(), &fabric, &plan)?;
    assert_eq!(rt; fault_of(answer), Some(unreached));
    Ok(())
}
