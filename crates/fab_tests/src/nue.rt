//! A heap with room for three choices; searches on a ring of four switches and on three in a row; plans for a ring of
//! five switches, each with a terminal, and for a switch alone.
ghost use Rattle.std.specs.Prelude.{◌≡◌, ◌<◌, ◌≤◌, length, IfOk};

use crate::fabrics::{Cable, RING_OF_FIVE, fabric_of};
use crate::plans::nth_lid;
use fab_depgraph::{Added, Dep, DepGraph, Mark, Steps};
use fab_hops::Hops;
use fab_model::{ChannelId, Fabric, Lid, SwitchId};
use fab_nue::{Choice, Choices, Room, Searched, home, nue, search};
use fab_sssp::Weights;
use fab_tables::{Plan, Tree};
use std::alloc::{AllocError, Global};
use std::marker::Brand;
use std::process::Abort;
use std::sync::ledger::{Blank, Ledger};
use std::test::Fail;

// Channel 2s leads from switch s to the next one, and 2s + 1 to the one before.
const RING_OF_FOUR: [Cable; 4] = [
    ((0, 1), (1, 2)),
    ((1, 1), (2, 2)),
    ((2, 1), (3, 2)),
    ((3, 1), (0, 2)),
];

// Two cables join the first switch to the second, and one the second to the third.
const TWO_AND_ONE: [Cable; 3] = [((0, 1), (1, 1)), ((0, 2), (1, 2)), ((1, 3), (2, 1))];

fn choice(weight: u64, channel: u32) -> Choice {
    Choice {
        weight,
        channel: ChannelId(channel),
    }
}

#[test]
fn the_least_choice_comes_first(rt: HostRuntime) -> Result<(), Fail> {
    let mut choices = Choices::new(rt.alloc(), 3)?;
    choices.push(choice(5, 2));
    choices.push(choice(3, 7));
    choices.push(choice(3, 4));
    assert_eq!(rt; choices.pop(), Some(choice(3, 4)));
    assert_eq!(rt; choices.pop(), Some(choice(3, 7)));
    assert_eq!(rt; choices.pop(), Some(choice(5, 2)));
    assert_eq!(rt; choices.pop(), None);
    Ok(())
}

/// How a search ended, the channel of each switch, and how many dependencies are in use then.
#[derive(Drop)]
struct Found {
    ended: Searched,
    channels: Vec<Option<ChannelId>>,
    in_use: Mark,
}

// An arena in which these dependencies are in use, with spare for a tree.
fn arena_of<L: Ledger>(
    rt: &impl Abort,
    alloc: Global,
    fabric: &Fabric,
    deps: &[(u32, u32)],
    steps: &mut Steps<L>,
) -> Result<DepGraph, AllocError>
    ensures channels { IfOk result (λ used. used.channels ≡ length fabric.now.channels) }
    ensures spare { IfOk result (λ used. length fabric.now.switches ≤ used.spare) }
{
    let mut used = DepGraph::new(alloc, fabric.channels())?;
    for (first, second) in deps {
        assert!(rt; *first < fabric.channels() && *second < fabric.channels());
        assert!(rt; used.mark().0 < 100);
        used.reserve(1)?;
        let dep = Dep {
            first: ChannelId(*first),
            second: ChannelId(*second),
        };
        assert_eq!(rt; used.add(dep, steps), Added::Yes);
    }
    assert!(rt; fabric.switches() < 100 && used.mark().0 < 100);
    used.reserve(fabric.switches())?;
    Ok(used)
}

// The search for the first LID beside these dependencies in use.
fn search_first<L: Ledger>(
    rt: &impl Abort,
    alloc: Global,
    fabric: &Fabric,
    deps: &[(u32, u32)],
    blank: Blank,
) -> Result<Found, AllocError>
    requires name { blank.name ≡ L.name }
    requires parts { blank.parts ≡ L.parts }
    requires some { 0 < blank.parts }
{
    let mut steps = Steps::<L>::new(blank);
    let mut used = arena_of(rt, alloc, fabric, deps, &mut steps)?;
    let weights = Weights::new(alloc, fabric)?;
    let mut tree = Tree::new(alloc, fabric)?;
    let mut room = Room::new(alloc, fabric)?;
    let lid = nth_lid(rt, fabric, 0);
    let ended = search(
        fabric, &weights, &mut used, lid, &mut tree, &mut room, &mut steps,
    );
    let mut channels = Vec::new(alloc);
    for s in 0..fabric.switches() {
        channels.push(tree.next(SwitchId(s)))?;
    }
    let in_use = used.mark();
    Ok(Found {
        ended,
        channels,
        in_use,
    })
}

// The third switch could go by channel 4 or 5: each closes a walk with what is in use, and no other can be turned.
#[test]
fn an_impasse_leaves_what_is_in_use(rt: HostRuntime) -> Result<(), Fail> {
    let fabric = fabric_of(&rt, rt.alloc(), 4, 4, &RING_OF_FOUR)?;
    let deps = [(3, 1), (1, 7), (7, 5), (6, 0), (0, 2), (2, 4)];
    let found = search_first::<Brand>(&rt, rt.alloc(), &fabric, &deps, Blank::new(1))?;
    assert_eq!(rt; found.ended, Searched::Impasse);
    assert_eq!(rt; found.in_use, Mark(6));
    assert_eq!(rt; found.channels.as_slice(), [None; 4].as_slice());
    Ok(())
}

// The second switch settles by channel 2, behind which channel 5 would close a walk; so channel 3 takes its place.
#[test]
fn a_swap_completes_the_tree(rt: HostRuntime) -> Result<(), Fail> {
    let fabric = fabric_of(&rt, rt.alloc(), 3, 3, &TWO_AND_ONE)?;
    let found = search_first::<Brand>(&rt, rt.alloc(), &fabric, &[(2, 5)], Blank::new(1))?;
    assert_eq!(rt; found.ended, Searched::Complete);
    assert_eq!(rt; found.in_use, Mark(2));
    let tree = [None, Some(ChannelId(3)), Some(ChannelId(5))];
    assert_eq!(rt; found.channels.as_slice(), tree.as_slice());
    Ok(())
}

// The port of each switch for a LID.
fn ports_to(
    rt: &impl Abort,
    alloc: Global,
    fabric: &Fabric,
    plan: &Plan,
    lid: u16,
) -> Result<Vec<u8>, AllocError> {
    assert!(rt; plan.fits(fabric));
    let mut ports = Vec::new(alloc);
    for s in 0..fabric.switches() {
        ports.push(plan.tables.get(SwitchId(s), Lid(lid)))?;
    }
    Ok(ports)
}

// From the last switch two hops would do, by the one before; but the turn there would close a walk with what is in use.
#[test]
fn a_turn_that_closes_a_walk_is_not_taken(rt: HostRuntime) -> Result<(), Fail> {
    let fabric = fabric_of(&rt, rt.alloc(), 5, 10, &RING_OF_FIVE)?;
    let hops = Hops::of(rt.alloc(), &fabric)?;
    let laid = nue(rt.alloc(), &fabric, &hops, 1, None)?;
    let to_switch = ports_to(&rt, rt.alloc(), &fabric, &laid.plan, 3)?;
    assert_eq!(rt; to_switch.as_slice(), [1, 1, 0, 2, 1].as_slice());
    let to_terminal = ports_to(&rt, rt.alloc(), &fabric, &laid.plan, 8)?;
    assert_eq!(rt; to_terminal.as_slice(), [1, 1, 3, 2, 1].as_slice());
    Ok(())
}

#[test]
fn each_lid_has_its_home_lane(rt: HostRuntime) -> Result<(), Fail> {
    let fabric = fabric_of(&rt, rt.alloc(), 5, 10, &RING_OF_FIVE)?;
    assert_eq!(rt; fabric.lids(), 10);
    for lid in fabric.lids_in_use() {
        let lane = home(&fabric, *lid, 2);
        let switch = (u32::from(lid.0) + 4) % 5;
        assert_eq!(rt; u32::from(lane), switch % 2, "LID {}", lid.0);
    }
    Ok(())
}

#[test]
fn a_switch_alone_has_its_entry_and_lanes(rt: HostRuntime) -> Result<(), Fail> {
    let fabric = fabric_of(&rt, rt.alloc(), 1, 1, &[])?;
    assert_eq!(rt; fabric.channels(), 0);
    let hops = Hops::of(rt.alloc(), &fabric)?;
    let laid = nue(rt.alloc(), &fabric, &hops, 15, None)?;
    let ports = ports_to(&rt, rt.alloc(), &fabric, &laid.plan, 1)?;
    assert_eq!(rt; ports.as_slice(), [0].as_slice());
    assert!(rt; laid.plan.fits(&fabric));
    assert_eq!(rt; fabric.switches(), 1);
    let lanes = laid.plan.lanes.as_ref().expect(&rt, "lanes");
    assert_eq!(rt; lanes.count(), 15);
    assert_eq!(rt; lanes.level(SwitchId(0), Lid(1)), None);
    for level in 0..16 {
        assert_eq!(rt; lanes.lane(SwitchId(0), level), level);
    }
    Ok(())
}
