//! Fabrics that the tests of several crates route.
ghost use Rattle.std.specs.Prelude.{◌≡◌, ◌+◌, ◌<◌, length, OnOk};
ghost use Rattle.fab_model.specs.Records.{last_line};

use fab_model::{Desc, Fabric, NodeKind, Raw, RawLink, RawNode};
use fab_report::{Kind, Recipe, generate};
use std::alloc::{AllocError, Global};
use std::process::Abort;
use std::test::Fail;

/// A cable by its ends, each a node and a port there. Nodes are counted from 0, the switches first.
pub type Cable = ((u32, u32), (u32, u32));

/// Two switches, and a terminal at the first.
pub const TWO_SWITCHES: [Cable; 2] = [((0, 1), (1, 1)), ((0, 2), (2, 1))];

/// Two cables between two switches, and two terminals at the second.
pub const TWO_CABLES: [Cable; 4] = [
    ((0, 1), (1, 1)),
    ((0, 2), (1, 2)),
    ((1, 3), (2, 1)),
    ((1, 4), (3, 1)),
];

/// Three switches in a row, and a terminal at the first. Channels 0 and 1 join the first two, 2 and 3 the last two.
pub const THREE_IN_A_ROW: [Cable; 3] = [((0, 1), (1, 1)), ((1, 2), (2, 1)), ((0, 2), (3, 1))];

/// Three switches, each with a terminal at port 3. Port 1 leads to the next one, port 2 to the one before. Channel 2s
/// leads from switch s to the next one.
pub const RING_OF_THREE: [Cable; 6] = [
    ((0, 1), (1, 2)),
    ((1, 1), (2, 2)),
    ((2, 1), (0, 2)),
    ((0, 3), (3, 1)),
    ((1, 3), (4, 1)),
    ((2, 3), (5, 1)),
];

/// As the ring of three, of five switches.
pub const RING_OF_FIVE: [Cable; 10] = [
    ((0, 1), (1, 2)),
    ((1, 1), (2, 2)),
    ((2, 1), (3, 2)),
    ((3, 1), (4, 2)),
    ((4, 1), (0, 2)),
    ((0, 3), (5, 1)),
    ((1, 3), (6, 1)),
    ((2, 3), (7, 1)),
    ((3, 3), (8, 1)),
    ((4, 3), (9, 1)),
];

fn kind_of(node: u32, switches: u32) -> NodeKind {
    if node < switches {
        NodeKind::Switch
    } else {
        NodeKind::Adapter
    }
}

/// The next node, on the line of its number.
fn push_node(raw: &mut Raw, number: u32, switches: u32) -> Result<(), AllocError>
    requires line { last_line raw.old < number }
    requires small { 0 < number }
    ensures line { OnOk result (last_line raw.new ≡ number) }
    ensures nodes { OnOk result (length raw.new.nodes ≡ length raw.old.nodes + 1) }
{
    raw.push_node(RawNode {
        line: number,
        kind: kind_of(number - 1, switches),
        guid: u64::from(number),
        ports: 4,
        lid: number,
        lmc: 0,
        desc: Desc::new(b""),
    })
}

/// One end of a cable, as it is stated on this line.
fn push_end(
    raw: &mut Raw,
    line: u32,
    switches: u32,
    near: (u32, u32),
    far: (u32, u32),
) -> Result<(), AllocError>
    requires line { last_line raw.old < line }
    requires node { near.0 < length raw.old.nodes }
    requires small { near.0 < 100 }
    ensures line { OnOk result (last_line raw.new ≡ line) }
    ensures nodes { OnOk result (raw.new.nodes ≡ raw.old.nodes) }
{
    raw.push_link(RawLink {
        line,
        node: near.0,
        port: near.1,
        far_kind: kind_of(far.0, switches),
        far_guid: u64::from(far.0) + 1,
        far_port: far.1,
        port_guid: 0,
        lid: near.0 + 1,
        lmc: 0,
    })
}

/// Of so many nodes the first are switches; each has four ports. A node's GUID and its LID are its number, counted
/// from 1.
pub fn fabric_of(
    rt: &impl Abort,
    alloc: Global,
    switches: u32,
    nodes: u32,
    cables: &[Cable],
) -> Result<Fabric, Fail> {
    assert!(rt; nodes < 100);
    let mut raw = Raw::new(alloc);
    for node in 0..nodes {
        push_node(&mut raw, node + 1, switches)?;
    }
    let mut line = nodes;
    for (one, other) in cables {
        assert!(rt; one.0 < nodes && other.0 < nodes && line < 100);
        push_end(&mut raw, line + 1, switches, *one, *other)?;
        push_end(&mut raw, line + 2, switches, *other, *one)?;
        line += 2;
    }
    Ok(Fabric::build(alloc, &raw)?)
}

/// Two switches cabled to each other, and a terminal at the first, with the GUIDs and the names of a generated fabric.
pub fn stub(rt: &impl Abort, alloc: Global) -> Result<Fabric, AllocError> {
    let recipe = Recipe {
        kind: Kind::Tree,
        a: 1,
        b: 1,
        seed: 0,
    };
    assert!(rt; recipe.fits());
    generate(alloc, &recipe)
}
