//! Lists of groups with their faults, and the tables of a group and what a packet of it reaches: at a switch alone, and
//! on a ring of five switches, each with a terminal.
ghost use Rattle.std.specs.Prelude.{◌<◌, All, length};
ghost use Rattle.fab_mcast.specs.GroupList.{Group as Row};

use crate::fabrics::{Cable, RING_OF_FIVE, fabric_of};
use fab_hops::Hops;
use fab_mcast::{GroupFault, Groups, plant, read_groups, spread};
use fab_model::{Fabric, SwitchId, TerminalId};
use std::alloc::{AllocError, Global};
use std::process::Abort;
use std::test::Fail;

const TWO_AT_A_SWITCH: [Cable; 2] = [((0, 1), (1, 1)), ((0, 2), (2, 1))];

// The ports of each switch's entry for the first group.
fn entries_of(
    rt: &impl Abort,
    alloc: Global,
    fabric: &Fabric,
    groups: &Groups,
) -> Result<Vec<Vec<u8>>, AllocError>
    requires known { All (λ (g : Row). All (λ n. n < length fabric.now.terminals) g.members) groups.now }
{
    assert!(rt; groups.count() > 0);
    let hops = Hops::of(alloc, fabric)?;
    let tables = plant(alloc, fabric, &hops, groups)?;
    let mut entries = Vec::new(alloc);
    for s in 0..fabric.switches() {
        entries.push(Vec::from_slice(alloc, tables.ports(0, SwitchId(s)))?)?;
    }
    Ok(entries)
}

// What is reached from a member of the first group.
fn reached_from(
    rt: &impl Abort,
    alloc: Global,
    fabric: &Fabric,
    groups: &Groups,
    place: usize,
) -> Result<Vec<TerminalId>, AllocError>
    requires known { All (λ (g : Row). All (λ n. n < length fabric.now.terminals) g.members) groups.now }
{
    assert!(rt; groups.count() > 0);
    let members = groups.members(0);
    assert!(rt; place < members.len());
    let from = members[place];
    let hops = Hops::of(alloc, fabric)?;
    let tables = plant(alloc, fabric, &hops, groups)?;
    spread(alloc, fabric, &tables, 0, from)
}

#[test]
fn two_at_a_switch(rt: HostRuntime) -> Result<(), Fail> {
    let fabric = fabric_of(&rt, rt.alloc(), 1, 3, &TWO_AT_A_SWITCH)?;
    let groups = read_groups(rt.alloc(), &fabric, b"0xFFFE 3 0x2\n")?;
    let entries = entries_of(&rt, rt.alloc(), &fabric, &groups)?;
    assert_eq!(rt; entries.len(), 1);
    assert_eq!(rt; entries[0].as_slice(), [1, 2].as_slice());
    let found = reached_from(&rt, rt.alloc(), &fabric, &groups, 0)?;
    assert_eq!(rt; found.as_slice(), [TerminalId(1)].as_slice());
    Ok(())
}

#[test]
fn three_on_a_ring(rt: HostRuntime) -> Result<(), Fail> {
    let fabric = fabric_of(&rt, rt.alloc(), 5, 10, &RING_OF_FIVE)?;
    let groups = read_groups(rt.alloc(), &fabric, b"# one group\n0xc000 6 8 9")?;
    assert_eq!(rt; groups.count(), 1);
    assert_eq!(rt; groups.number(0), 0xc000);
    let entries = entries_of(&rt, rt.alloc(), &fabric, &groups)?;
    assert_eq!(rt; entries.len(), 5);
    assert_eq!(rt; entries[0].as_slice(), [1, 2, 3].as_slice());
    assert_eq!(rt; entries[1].as_slice(), [1, 2].as_slice());
    assert_eq!(rt; entries[2].as_slice(), [2, 3].as_slice());
    assert_eq!(rt; entries[3].as_slice(), [1, 3].as_slice());
    assert_eq!(rt; entries[4].as_slice(), [1, 2].as_slice());
    let found = reached_from(&rt, rt.alloc(), &fabric, &groups, 1)?;
    assert_eq!(rt; found.as_slice(), [TerminalId(0), TerminalId(3)].as_slice());
    Ok(())
}

#[test]
fn the_first_faulty_line_decides(rt: HostRuntime) -> Result<(), Fail> {
    let fabric = fabric_of(&rt, rt.alloc(), 1, 3, &TWO_AT_A_SWITCH)?;
    let twice = read_groups(rt.alloc(), &fabric, b"0xc001 2\n\n0xc001 1\n0xc002\n");
    assert!(rt; matches!(twice, Err(GroupFault::TwiceGroup { line: 3 })));
    let unknown = read_groups(rt.alloc(), &fabric, b"0xc001 2 1\n0xc001 2\n");
    assert!(rt; matches!(unknown, Err(GroupFault::UnknownMember { line: 1 })));
    Ok(())
}
