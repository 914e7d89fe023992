//! Reports on a plan with one route on a random fabric.
use crate::plans::{nth_lid, set_entry};
use fab_model::{Place, SwitchId};
use fab_report::{Kind, Recipe, generate, load, show, summary};
use fab_tables::{End, Plan, Tables};
use std::test::Fail;

// The route from the second switch to the first one's terminal, along the one cable between them.
#[test]
fn random_fabric(rt: HostRuntime) -> Result<(), Fail> {
    let recipe = Recipe {
        kind: Kind::Random,
        a: 5,
        b: 4,
        seed: 11,
    };
    assert!(rt; recipe.fits());
    let fabric = generate(rt.alloc(), &recipe)?;
    let tables = Tables::new(rt.alloc(), &fabric)?;
    let mut plan = Plan {
        tables,
        lanes: None,
    };
    set_entry(&rt, &fabric, &mut plan, (0, 5), 1);
    set_entry(&rt, &fabric, &mut plan, (1, 5), 2);
    assert!(rt; plan.fits(&fabric));
    assert_eq!(rt; fabric.switches(), 5);
    let from = Place {
        switch: SwitchId(1),
        port: 1,
    };
    let lid = nth_lid(&rt, &fabric, 5);
    let shown = show(rt.alloc(), &fabric, &plan, from, lid)?;
    assert_eq!(rt; shown.end, End::Delivered);
    assert_eq!(rt;
        shown.text.bytes(),
        b"0x0000000000010001 002\ndelivered\n".as_slice()
    );
    let loads = load(rt.alloc(), &fabric, &plan.tables)?;
    assert_eq!(rt; loads.greatest(), 1);
    let row = summary(rt.alloc(), &fabric, &plan)?;
    assert_eq!(rt; (row.channels, row.lids, row.hops), (16, 10, 1));
    Ok(())
}
