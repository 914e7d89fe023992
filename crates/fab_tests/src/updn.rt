//! UPDN for three switches in a row, and a terminal at the first.
use crate::fabrics::{THREE_IN_A_ROW, fabric_of};
use crate::plans::number;
use fab_hops::Hops;
use fab_model::SwitchId;
use fab_updn::{UpdnFault, updn};
use std::test::Fail;

#[test]
fn roots_at_both_ends_are_refused(rt: HostRuntime) -> Result<(), Fail> {
    let fabric = fabric_of(&rt, rt.alloc(), 3, 4, &THREE_IN_A_ROW)?;
    assert_eq!(rt; fabric.switches(), 3);
    let hops = Hops::of(rt.alloc(), &fabric)?;
    let result = updn(rt.alloc(), &fabric, &hops, &[SwitchId(0), SwitchId(2)]);
    let refused =
        matches!(&result, Err(UpdnFault::NoLegalRoute { from, to }) if from.0 == 0 && to.0 == 2);
    assert!(rt; refused);
    Ok(())
}

#[test]
fn numbers_rise_from_the_terminal(rt: HostRuntime) -> Result<(), Fail> {
    let fabric = fabric_of(&rt, rt.alloc(), 3, 4, &THREE_IN_A_ROW)?;
    assert_eq!(rt; fabric.switches(), 3);
    let hops = Hops::of(rt.alloc(), &fabric)?;
    let plan = updn(rt.alloc(), &fabric, &hops, &[SwitchId(1)])?;
    for (channel, wanted) in [(0, 1), (1, 0), (2, 2), (3, 0)] {
        assert_eq!(rt;
            number(&rt, &fabric, &plan, channel, 0),
            wanted,
            "channel {channel}"
        );
    }
    Ok(())
}
