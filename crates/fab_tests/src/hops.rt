//! Hops and centres of three switches in a row, and one that is cabled to none.
use crate::fabrics::{Cable, fabric_of};
use fab_hops::Hops;
use fab_model::SwitchId;
use std::test::Fail;

const FIRST: SwitchId = SwitchId(0);

const SECOND: SwitchId = SwitchId(1);

const THIRD: SwitchId = SwitchId(2);

const ALONE: SwitchId = SwitchId(3);

const IN_A_ROW: [Cable; 2] = [((0, 1), (1, 1)), ((1, 2), (2, 1))];

#[test]
fn the_second_of_three_is_the_centre(rt: HostRuntime) -> Result<(), Fail> {
    let fabric = fabric_of(&rt, rt.alloc(), 4, 4, &IN_A_ROW)?;
    assert_eq!(rt; fabric.switches(), 4);
    let hops = Hops::of(rt.alloc(), &fabric)?;
    assert_eq!(rt; hops.hop(FIRST, THIRD), Some(2));
    assert_eq!(rt; hops.hop(THIRD, THIRD), Some(0));
    assert_eq!(rt; hops.hop(FIRST, ALONE), None);
    let order = hops.centre_order(rt.alloc(), FIRST)?;
    assert_eq!(rt; order.as_slice(), [SECOND, FIRST, THIRD].as_slice());
    let order = hops.centre_order(rt.alloc(), ALONE)?;
    assert_eq!(rt; order.as_slice(), [ALONE].as_slice());
    Ok(())
}
