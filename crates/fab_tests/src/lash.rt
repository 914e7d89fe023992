//! LASH for a ring of five switches, each with a terminal.
use crate::fabrics::{RING_OF_FIVE, fabric_of};
use crate::plans::{level, number};
use fab_depgraph::Dep;
use fab_hops::Hops;
use fab_lash::{LashFault, lash};
use fab_model::{ChannelId, SwitchId};
use std::test::Fail;

// The closed walk of port 1's channels is completed by the routes between switches 2 and 4.
#[test]
fn one_lane_is_not_enough(rt: HostRuntime) -> Result<(), Fail> {
    let fabric = fabric_of(&rt, rt.alloc(), 5, 10, &RING_OF_FIVE)?;
    assert_eq!(rt; fabric.switches(), 5);
    let hops = Hops::of(rt.alloc(), &fabric)?;
    let result = lash(rt.alloc(), &fabric, &hops, 1);
    let refused =
        matches!(&result, Err(LashFault::NeedsLane { low, high }) if low.0 == 2 && high.0 == 4);
    assert!(rt; refused);
    assert_eq!(rt; fabric.switch(SwitchId(2)).guid, 3);
    assert_eq!(rt; fabric.switch(SwitchId(4)).guid, 5);
    Ok(())
}

// By lane the numbers of the channels; those of a switch follow each other, port 1 before port 2.
const NUMBERS: [[u32; 10]; 2] = [
    [3, 4, 4, 3, 5, 2, 1, 1, 2, 5],
    [0, 0, 0, 0, 1, 0, 2, 2, 0, 1],
];

#[test]
fn the_last_pair_goes_on_the_second_lane(rt: HostRuntime) -> Result<(), Fail> {
    let fabric = fabric_of(&rt, rt.alloc(), 5, 10, &RING_OF_FIVE)?;
    assert_eq!(rt; fabric.lids(), 10);
    let hops = Hops::of(rt.alloc(), &fabric)?;
    let layered = lash(rt.alloc(), &fabric, &hops, 2)?;
    for switch in 0..5 {
        for lid in 1..11 {
            let apart = (switch == 2 && lid % 5 == 0) || (switch == 4 && lid % 5 == 3);
            let wanted = Some(u8::from(apart));
            let found = level(&rt, &fabric, &layered.plan, switch, lid);
            assert_eq!(rt; found, wanted, "switch {switch}, LID {lid}");
        }
    }
    for lane in 0..2 {
        for channel in 0..10 {
            let wanted = NUMBERS[lane as usize][channel as usize];
            let found = number(&rt, &fabric, &layered.plan, channel, lane);
            assert_eq!(rt; found, wanted, "channel {channel}, lane {lane}");
        }
    }
    Ok(())
}

// Each lane lists the dependencies of its pairs, each once.
#[test]
fn the_lanes_list_what_their_pairs_use(rt: HostRuntime) -> Result<(), Fail> {
    let fabric = fabric_of(&rt, rt.alloc(), 5, 10, &RING_OF_FIVE)?;
    let hops = Hops::of(rt.alloc(), &fabric)?;
    let layered = lash(rt.alloc(), &fabric, &hops, 2)?;
    let used = &layered.used;
    assert_eq!(rt; used.lanes(), 2);
    assert_eq!(rt; used.lane(0).mark().0, 8);
    assert_eq!(rt; used.lane(1).mark().0, 2);
    let dep = Dep {
        first: ChannelId(4),
        second: ChannelId(6),
    };
    assert_eq!(rt; used.lane(0).count(dep), 0);
    assert_eq!(rt; used.lane(1).count(dep), 1);
    Ok(())
}
