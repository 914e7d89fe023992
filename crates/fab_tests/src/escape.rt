//! Escape trees of a ring of five switches and one that is cabled to none, and of a torus of three by three.
ghost use Rattle.std.specs.Prelude.{◌≡◌, length};

use crate::fabrics::{RING_OF_FIVE, fabric_of};
use fab_escape::Escape;
use fab_hops::Hops;
use fab_model::{ChannelId, Fabric, SwitchId};
use fab_report::{Kind, Recipe, generate};
use std::alloc::{AllocError, Global};
use std::process::Abort;
use std::test::Fail;

#[test]
fn each_component_has_its_tree(rt: HostRuntime) -> Result<(), Fail> {
    let fabric = fabric_of(&rt, rt.alloc(), 6, 6, &RING_OF_FIVE[..5])?;
    assert_eq!(rt; fabric.switches(), 6);
    let hops = Hops::of(rt.alloc(), &fabric)?;
    let escape = Escape::of(rt.alloc(), &fabric, &hops, 0)?;
    assert_eq!(rt; escape.root(SwitchId(3)), SwitchId(0));
    assert_eq!(rt; escape.root(SwitchId(5)), SwitchId(5));
    assert_eq!(rt; escape.next(SwitchId(2), SwitchId(3)), Some(ChannelId(5)));
    assert_eq!(rt; escape.next(SwitchId(3), SwitchId(2)), Some(ChannelId(6)));
    assert_eq!(rt; escape.next(SwitchId(0), SwitchId(2)), Some(ChannelId(0)));
    assert_eq!(rt; escape.next(SwitchId(1), SwitchId(2)), Some(ChannelId(2)));
    assert_eq!(rt; escape.next(SwitchId(2), SwitchId(2)), None);
    assert_eq!(rt; escape.next(SwitchId(2), SwitchId(5)), None);
    let other = Escape::of(rt.alloc(), &fabric, &hops, 7)?;
    assert_eq!(rt; other.root(SwitchId(0)), SwitchId(2));
    assert_eq!(rt; other.root(SwitchId(5)), SwitchId(5));
    Ok(())
}

// Switch s stands in row s / 3 and column s % 3. Its channels are 4 * s and the next three, to the next switch and the one
// before in its row, and to those in its column.
fn torus(rt: &impl Abort, alloc: Global) -> Result<Fabric, AllocError> {
    let recipe = Recipe {
        kind: Kind::Torus,
        a: 3,
        b: 3,
        seed: 0,
    };
    assert!(rt; recipe.fits());
    generate(alloc, &recipe)
}

fn next(rt: &impl Abort, escape: &Escape, from: u32, to: u32) -> Option<ChannelId>
    requires { length escape.now.roots ≡ 9 }
{
    assert!(rt; from < 9);
    assert!(rt; to < 9);
    escape.next(SwitchId(from), SwitchId(to))
}

// Every switch of a torus is a centre, so in lane 7 switch 7 is the root.
#[test]
fn routes_go_through_the_root(rt: HostRuntime) -> Result<(), Fail> {
    let fabric = torus(&rt, rt.alloc())?;
    assert_eq!(rt; fabric.switches(), 9);
    let hops = Hops::of(rt.alloc(), &fabric)?;
    let escape = Escape::of(rt.alloc(), &fabric, &hops, 7)?;
    for s in 0..9 {
        assert_eq!(rt; escape.root(SwitchId(s)), SwitchId(7));
    }
    for (from, to, channel) in [
        (0, 3, 0),
        (1, 3, 7),
        (7, 3, 31),
        (4, 3, 17),
        (1, 2, 4),
        (2, 1, 9),
        (5, 8, 21),
        (7, 8, 28),
        (8, 6, 33),
    ] {
        assert_eq!(rt;
            next(&rt, &escape, from, to),
            Some(ChannelId(channel)),
            "{from} to {to}"
        );
    }
    Ok(())
}
