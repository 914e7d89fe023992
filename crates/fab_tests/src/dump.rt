//! A plan written and read again, the words of faults, limits met, and a write that stops.
use crate::fabrics::stub;
use crate::plans::{nth_lid, plan_of};
use fab_dump::{WriteFault, read_plan, write_plan};
use fab_io::MemorySink;
use fab_model::{ChannelId, Desc, Fabric, NodeKind, Raw, RawNode, SwitchId};
use fab_tables::{Lanes, PairRow};
use fab_text::push_dec;
use std::alloc::Global;
use std::process::Abort;
use std::test::Fail;

// Level 0 on lane 0, and all others on lane 15.
const ONE_LANE: [u8; 16] = [
    0, 15, 15, 15, 15, 15, 15, 15, 15, 15, 15, 15, 15, 15, 15, 15,
];

const WITH_A_PAIR: &[u8] = b"fabroute plan 3\n\
lanes 15\n\
Unicast lids [0x0001-0x0003] of switch Lid 1 guid 0x0000000000010000 (switch 0):\n\
0x0001 000 001 002\n\
Unicast lids [0x0001-0x0003] of switch Lid 2 guid 0x0000000000010001 (switch 1):\n\
0x0001 001 000 001\n\
Levels of switch guid 0x0000000000010000:\n\
0x0001 -- 15 --\n\
Lane map of switch guid 0x0000000000010000:\n\
15 15 15 15 15 15 15 15 15 15 15 15 15 15 15 15\n\
Lane map of switch guid 0x0000000000010001:\n\
15 15 15 15 15 15 15 15 15 15 15 15 15 15 15 15\n\
[001 000] 00 15 15 15 15 15 15 15 15 15 15 15 15 15 15 15\n\
Certificate:\n\
0x0000000000010001 001 14 4294967295\n\
end plan\n";

// So many switches, without cables.
fn switches_alone(alloc: Global, count: u32) -> Result<Fabric, Fail> {
    let mut raw = Raw::new(alloc);
    for index in 0..count {
        raw.push_node(RawNode {
            line: index + 1,
            kind: NodeKind::Switch,
            guid: 0x10 + u64::from(index),
            ports: 254,
            lid: index + 1,
            lmc: 0,
            desc: Desc::new(b""),
        })?;
    }
    Ok(Fabric::build(alloc, &raw)?)
}

// The port of each switch for each of the three LIDs.
const ROUTES: [u8; 6] = [0, 1, 2, 1, 0, 1];

// One level, one number, and a pair of ports with a map.
fn lanes_with_a_pair(rt: &impl Abort, alloc: Global, fabric: &Fabric) -> Result<Lanes, Fail> {
    assert_eq!(rt; fabric.switches(), 2);
    assert_eq!(rt; fabric.channels(), 2);
    let mut lanes = Lanes::new(alloc, fabric, 15)?;
    lanes.set_level(SwitchId(0), nth_lid(rt, fabric, 1), Some(15));
    lanes.set_number(ChannelId(1), 14, u32::MAX);
    let row = PairRow {
        switch: SwitchId(1),
        from_port: 1,
        to_port: 0,
        map: ONE_LANE,
    };
    let set = lanes.set_pair(row).is_ok();
    assert!(rt; set);
    Ok(lanes)
}

fn told(
    rt: &impl Abort,
    alloc: Global,
    fabric: &Fabric,
    text: &[u8],
    fault: &str,
) -> Result<(), Fail> {
    assert!(rt; text.len() < 10_000_000);
    match read_plan(alloc, fabric, text) {
        Ok(_) => assert!(rt; false, "{fault}"),
        Err(why) => {
            let told = format!(in alloc; "{why}")?;
            assert_eq!(rt; told.as_str(), fault);
        }
    }
    Ok(())
}

// The map of each pair of ports of two switches with 254 ports.
fn pairs_text(alloc: Global) -> Result<Vec<u8>, Fail> {
    let row = b"] 00 15 15 15 15 15 15 15 15 15 15 15 15 15 15 15\n".as_slice();
    let mut text = Vec::new(alloc);
    text.extend_from_slice(b"fabroute plan 3\nlanes 1\n")?;
    for guid in [b"0x10:\n".as_slice(), b"0x11:\n"] {
        text.extend_from_slice(b"Lane map of switch guid ")?;
        text.extend_from_slice(guid)?;
        text.extend_from_slice(&row[2..])?;
        for from in 0..255 {
            for to in 0..255 {
                text.extend_from_slice(b"[")?;
                push_dec(&mut text, from)?;
                text.extend_from_slice(b" ")?;
                push_dec(&mut text, to)?;
                text.extend_from_slice(row)?;
            }
        }
    }
    Ok(text)
}

#[test]
fn faults(rt: HostRuntime) -> Result<(), Fail> {
    let fabric = stub(&rt, rt.alloc())?;
    for (text, fault) in [
        ("fabroute plan 4\n", "line 1: unknown version"),
        ("fabroute plan 2\nlanes 1\n", "no end"),
        ("Unicast lids guid 0x10000\n0x1 256\n", "line 2: bad row"),
        (
            "Unicast lids guid 0x10000\n0x1 0\n0x9 0\n0x1 0\n",
            "line 4: row given twice",
        ),
        (
            "fabroute plan 2\nlanes 1\nCertificate:\nCertificate:\n",
            "line 4: block given twice",
        ),
        (
            "fabroute plan 2\nlanes 1\nLevels of switch guid 0x11:\n",
            "line 3: bad level row",
        ),
        (
            "fabroute plan 2\nlanes 1\nLane map of switch guid 0x10000:\nend plan\n",
            "line 4: bad lane row",
        ),
        (
            "fabroute plan 2\nlanes 1\nCertificate:\n0x10000 2 0 1\n",
            "line 4: bad number row",
        ),
    ] {
        told(&rt, rt.alloc(), &fabric, text.as_bytes(), fault)?;
    }
    Ok(())
}

#[test]
fn too_many_switches_for_version_1(rt: HostRuntime) -> Result<(), Fail> {
    let fabric = switches_alone(rt.alloc(), 513)?;
    let text = b"fabroute plan 1\nlanes none\nend plan\n";
    told(&rt, rt.alloc(), &fabric, text, "line 1: unknown version")
}

#[test]
fn too_many_pairs(rt: HostRuntime) -> Result<(), Fail> {
    let fabric = switches_alone(rt.alloc(), 2)?;
    let text = pairs_text(rt.alloc())?;
    told(
        &rt,
        rt.alloc(),
        &fabric,
        &text,
        "line 65543: too many pair maps",
    )
}

#[test]
fn plan_with_a_pair(rt: HostRuntime) -> Result<(), Fail> {
    let fabric = stub(&rt, rt.alloc())?;
    let mut plan = plan_of(&rt, rt.alloc(), &fabric, &ROUTES)?;
    plan.lanes = Some(lanes_with_a_pair(&rt, rt.alloc(), &fabric)?);
    assert!(rt; plan.fits(&fabric));
    let mut sink = MemorySink::new(rt.alloc());
    write_plan(rt.alloc(), &fabric, &plan, &mut sink)?;
    assert!(rt; sink.bytes() == WITH_A_PAIR);
    let again = read_plan(rt.alloc(), &fabric, WITH_A_PAIR)?;
    assert!(rt; again.fits(&fabric));
    Ok(())
}

// The second put fails once it kept 7 bytes of the first table block.
#[test]
fn write_stops(rt: HostRuntime) -> Result<(), Fail> {
    let fabric = stub(&rt, rt.alloc())?;
    let plan = plan_of(&rt, rt.alloc(), &fabric, &ROUTES)?;
    assert!(rt; plan.fits(&fabric));
    let mut sink = MemorySink::new(rt.alloc());
    sink.fail(2, 7)?;
    let outcome = write_plan(rt.alloc(), &fabric, &plan, &mut sink);
    assert!(rt; matches!(outcome, Err(WriteFault::Failed)));
    assert!(rt; sink.bytes() == b"fabroute plan 2\nlanes none\nUnicast".as_slice());
    Ok(())
}
