//! Tables by Min Hop and DOR for two switches joined by two cables, with two terminals at the second, and ports picked.
use crate::fabrics::{TWO_CABLES, fabric_of};
use fab_balance::{dor, minhop, pick};
use fab_hops::Hops;
use fab_model::{Lid, SwitchId};
use std::test::Fail;

const FIRST: SwitchId = SwitchId(0);

#[test]
fn the_second_terminal_goes_by_the_second_cable(rt: HostRuntime) -> Result<(), Fail> {
    let fabric = fabric_of(&rt, rt.alloc(), 2, 4, &TWO_CABLES)?;
    assert_eq!(rt; fabric.switches(), 2);
    let hops = Hops::of(rt.alloc(), &fabric)?;
    let balanced = minhop(rt.alloc(), &fabric, &hops)?;
    let least = dor(rt.alloc(), &fabric, &hops)?;
    for (lid, port, least_port) in [(1, 0, 0), (2, 1, 1), (3, 1, 1), (4, 2, 1), (5, 255, 255)] {
        assert_eq!(rt; balanced.get(FIRST, Lid(lid)), port, "Min Hop, LID {lid}");
        assert_eq!(rt; least.get(FIRST, Lid(lid)), least_port, "DOR, LID {lid}");
    }
    Ok(())
}

#[test]
fn the_least_port_of_least_load_is_picked(rt: HostRuntime) {
    let mut loads = [0; 256];
    loads[1] = 4;
    loads[2] = 2;
    loads[3] = 2;
    assert_eq!(rt; pick(&loads, &[3, 2, 1]), Some(2));
    assert_eq!(rt; pick(&loads, &[]), None);
}
