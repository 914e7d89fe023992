//! DFSSSP for a ring of five switches, each with a terminal, and for a switch alone with a terminal.
use crate::fabrics::{RING_OF_FIVE, fabric_of};
use crate::plans::level;
use fab_dfsssp::{BreakFault, dfsssp};
use std::test::Fail;

// The channels of port 1 close a ring; the last lane may have none.
#[test]
fn one_lane_ends_at_the_ring(rt: HostRuntime) -> Result<(), Fail> {
    let fabric = fabric_of(&rt, rt.alloc(), 5, 10, &RING_OF_FIVE)?;
    let result = dfsssp(rt.alloc(), &fabric, 1);
    let refused =
        matches!(&result, Err(BreakFault::NeedsLane { ring }) if ring.nodes() == [0, 2, 4, 6, 8].as_slice());
    assert!(rt; refused);
    Ok(())
}

// Two paths contain each edge of each ring, so the first edge is taken: channels 0 and 2 for LIDs 3 and 8, then channels 1
// and 9 for LIDs 4 and 9.
#[test]
fn paths_of_one_source_move(rt: HostRuntime) -> Result<(), Fail> {
    let fabric = fabric_of(&rt, rt.alloc(), 5, 10, &RING_OF_FIVE)?;
    assert_eq!(rt; fabric.lids(), 10);
    let plan = dfsssp(rt.alloc(), &fabric, 2)?;
    for switch in 0..5 {
        for lid in 1..11 {
            let moved = switch == 0 && (lid % 5 == 3 || lid % 5 == 4);
            let wanted = Some(u8::from(moved));
            let found = level(&rt, &fabric, &plan, switch, lid);
            assert_eq!(rt; found, wanted, "switch {switch}, LID {lid}");
        }
    }
    Ok(())
}

#[test]
fn a_switch_alone_has_a_plan(rt: HostRuntime) -> Result<(), Fail> {
    let fabric = fabric_of(&rt, rt.alloc(), 1, 2, &[((0, 1), (1, 1))])?;
    assert_eq!(rt; fabric.channels(), 0);
    let plan = dfsssp(rt.alloc(), &fabric, 1)?;
    assert_eq!(rt; level(&rt, &fabric, &plan, 0, 1), Some(0));
    assert_eq!(rt; level(&rt, &fabric, &plan, 0, 2), Some(0));
    Ok(())
}
