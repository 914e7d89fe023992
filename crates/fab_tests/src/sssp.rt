//! Distances and tables of two switches joined by two cables, with two terminals at the second.
use crate::fabrics::{TWO_CABLES, fabric_of};
use fab_model::{Lid, SwitchId};
use fab_sssp::{Weights, distances, lay};
use std::test::Fail;

const FIRST: SwitchId = SwitchId(0);

const SECOND: SwitchId = SwitchId(1);

#[test]
fn a_fresh_channel_is_as_far_as_it_weighs(rt: HostRuntime) -> Result<(), Fail> {
    let fabric = fabric_of(&rt, rt.alloc(), 2, 4, &TWO_CABLES)?;
    assert_eq!(rt; fabric.switches(), 2);
    let weights = Weights::new(rt.alloc(), &fabric)?;
    let found = distances(rt.alloc(), &fabric, &weights, SECOND)?;
    assert_eq!(rt; found.as_slice(), [Some(17), Some(0)].as_slice());
    Ok(())
}

#[test]
fn each_lid_is_laid(rt: HostRuntime) -> Result<(), Fail> {
    let fabric = fabric_of(&rt, rt.alloc(), 2, 4, &TWO_CABLES)?;
    assert_eq!(rt; fabric.switches(), 2);
    let tables = lay(rt.alloc(), &fabric)?;
    for (lid, first, second) in [(1, 0, 1), (2, 1, 0), (3, 1, 3), (4, 1, 4), (5, 255, 255)] {
        assert_eq!(rt;
            tables.get(FIRST, Lid(lid)),
            first,
            "first switch, LID {lid}"
        );
        assert_eq!(rt;
            tables.get(SECOND, Lid(lid)),
            second,
            "second switch, LID {lid}"
        );
    }
    Ok(())
}
