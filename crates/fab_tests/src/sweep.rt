//! Two switches and the cables between them, with Nue's plan on one lane: what each failure costs.
use crate::fabrics::{Cable, TWO_CABLES, fabric_of};
use fab_hops::Hops;
use fab_model::{Fabric, SwitchId};
use fab_nue::nue;
use fab_sweep::{Failing, SweepRow, Swept, sweep};
use std::alloc::{AllocError, Global};
use std::test::Fail;

// And a terminal at the second switch.
const ONE_CABLE: [Cable; 2] = [((0, 1), (1, 1)), ((1, 3), (2, 1))];

// The rows of a sweep of Nue's plan on one lane.
fn swept(alloc: Global, fabric: &Fabric, what: Failing) -> Result<Swept, AllocError> {
    let hops = Hops::of(alloc, fabric)?;
    let laid = nue(alloc, fabric, &hops, 1, None)?;
    sweep(alloc, fabric, &laid.plan, 1, what)
}

// With one cable and one terminal its failure, and that of either switch, cuts off three pairs.
fn cut_off(switch: u32, port: u8) -> SweepRow {
    SweepRow {
        switch: SwitchId(switch),
        port,
        lost: 3,
        kept: 3,
        changed: 3,
        moved: 0,
    }
}

#[test]
fn the_only_cable_fails(rt: HostRuntime) -> Result<(), Fail> {
    let fabric = fabric_of(&rt, rt.alloc(), 2, 3, &ONE_CABLE)?;
    let swept_cables = swept(rt.alloc(), &fabric, Failing::Cables)?;
    assert_eq!(rt; swept_cables.rows(), [cut_off(0, 1)].as_slice());
    let swept_switches = swept(rt.alloc(), &fabric, Failing::Switches)?;
    assert_eq!(rt;
        swept_switches.rows(),
        [cut_off(0, 0), cut_off(1, 0)].as_slice()
    );
    Ok(())
}

// All routes go by the first cable: where it fails all LIDs are laid anew, where the other one fails all stay.
#[test]
fn one_of_two_cables_fails(rt: HostRuntime) -> Result<(), Fail> {
    let fabric = fabric_of(&rt, rt.alloc(), 2, 4, &TWO_CABLES)?;
    let swept_cables = swept(rt.alloc(), &fabric, Failing::Cables)?;
    let row = SweepRow {
        switch: SwitchId(0),
        port: 1,
        lost: 0,
        kept: 0,
        changed: 4,
        moved: 0,
    };
    let other = SweepRow {
        port: 2,
        kept: 4,
        changed: 0,
        ..row
    };
    assert_eq!(rt; swept_cables.rows(), [row, other].as_slice());
    Ok(())
}
