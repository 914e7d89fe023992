//! Each call of a fabric once, cables taken out, and the words of the faults.
ghost use Rattle.std.specs.Prelude.{◌≡◌};

use fab_model::{
    Cable, ChannelId, Desc, Fabric, FabricFault, Lid, NodeKind, Place, Raw, RawLink, RawNode,
    SwitchId, TerminalId, WithoutFault,
};
use std::alloc::{AllocError, Global};
use std::test::Fail;

fn node(line: u32, kind: NodeKind, guid: u64, ports: u32, lid: u32, lmc: u32) -> RawNode
    ensures { result.line ≡ line }
{
    let desc = Desc::new(b"node");
    RawNode {
        line,
        kind,
        guid,
        ports,
        lid,
        lmc,
        desc,
    }
}

fn link(line: u32, node: u32, port: u32, far: (NodeKind, u64, u32), lid: u32, lmc: u32) -> RawLink
    ensures line { result.line ≡ line }
    ensures node { result.node ≡ node }
{
    let (far_kind, far_guid, far_port) = far;
    RawLink {
        line,
        node,
        port,
        far_kind,
        far_guid,
        far_port,
        port_guid: 0,
        lid,
        lmc,
    }
}

/// Two switches that a cable joins, and an adapter at the second port of the one of the lesser GUID.
fn sample(alloc: Global) -> Result<Raw, AllocError> {
    let mut raw = Raw::new(alloc);
    raw.push_node(node(1, NodeKind::Switch, 0x20, 4, 7, 0))?;
    raw.push_link(link(2, 0, 3, (NodeKind::Switch, 0x10, 1), 0, 0))?;
    raw.push_node(node(4, NodeKind::Switch, 0x10, 4, 3, 0))?;
    raw.push_link(link(5, 1, 1, (NodeKind::Switch, 0x20, 3), 0, 0))?;
    raw.push_link(link(6, 1, 2, (NodeKind::Adapter, 0x30, 1), 0, 0))?;
    raw.push_node(node(8, NodeKind::Adapter, 0x30, 4, 0, 0))?;
    raw.push_link(link(9, 2, 1, (NodeKind::Switch, 0x10, 2), 5, 0))?;
    Ok(raw)
}

#[test]
fn rows_are_found(rt: HostRuntime) -> Result<(), Fail> {
    let raw = sample(rt.alloc())?;
    assert_eq!(rt; (raw.nodes().len(), raw.links().len()), (3, 4));
    let fabric = Fabric::build(rt.alloc(), &raw)?;
    assert_eq!(rt; (fabric.switches(), fabric.channels()), (2, 2));
    assert_eq!(rt; (fabric.terminals(), fabric.adapters()), (1, 1));
    assert_eq!(rt; fabric.lids(), 3);
    assert_eq!(rt; fabric.switch(SwitchId(1)).guid, 0x20);
    assert_eq!(rt; fabric.adapter(0).guid, 0x30);
    assert_eq!(rt; fabric.terminal(TerminalId(0)).lid, Lid(5));
    assert_eq!(rt; fabric.channel(ChannelId(1)).port, 3);
    assert_eq!(rt; fabric.tip(ChannelId(1)), SwitchId(0));
    assert_eq!(rt; fabric.reverse(ChannelId(1)), ChannelId(0));
    assert_eq!(rt; fabric.leaves(SwitchId(1)), (1, 2));
    assert_eq!(rt; fabric.channel_at(SwitchId(1), 3), Some(ChannelId(1)));
    assert_eq!(rt; fabric.channel_at(SwitchId(0), 2), None);
    assert_eq!(rt; fabric.terminal_at(SwitchId(0), 2), Some(TerminalId(0)));
    assert_eq!(rt; fabric.lids_in_use(), [Lid(3), Lid(5), Lid(7)].as_slice());
    assert_eq!(rt; fabric.lid_at(1), Some(Lid(5)));
    assert_eq!(rt; fabric.lid_at(3), None);
    let at_adapter = Place {
        switch: SwitchId(0),
        port: 2,
    };
    assert_eq!(rt; fabric.place_of(Lid(5)), Some(at_adapter));
    assert_eq!(rt; fabric.place_of(Lid(6)), None);
    assert_eq!(rt; fabric.switch_of(0x20), Some(SwitchId(1)));
    assert!(rt; fabric.has_terminal(SwitchId(0)));
    assert!(rt; !fabric.has_terminal(SwitchId(1)));
    Ok(())
}

#[test]
fn a_cable_is_taken_out(rt: HostRuntime) -> Result<(), Fail> {
    let raw = sample(rt.alloc())?;
    let fabric = Fabric::build(rt.alloc(), &raw)?;
    let ends = [
        Cable {
            guid: 0x20,
            port: 3,
        },
        Cable {
            guid: 0x10,
            port: 1,
        },
    ];
    let left = fabric.without(rt.alloc(), &ends)?;
    assert_eq!(rt; left.channels(), 0);
    assert_eq!(rt; left.lids(), 3);
    // the port of a terminal names no cable, and its place in the list is told
    let [first, _] = ends;
    let terminal = Cable {
        guid: 0x10,
        port: 2,
    };
    let refused = fabric.without(rt.alloc(), &[first, terminal]);
    assert!(rt; matches!(refused, Err(WithoutFault::UnknownCable { index: 1 })));
    Ok(())
}

#[test]
fn faults_are_told(rt: HostRuntime) -> Result<(), Fail> {
    let line = 7;
    for (fault, told) in [
        (FabricFault::NoSwitch, "no switch"),
        (FabricFault::TooManySwitches, "too many switches"),
        (FabricFault::TwiceGuid { line }, "line 7: guid used twice"),
        (FabricFault::PortRange { line }, "line 7: port out of range"),
        (FabricFault::TwicePort { line }, "line 7: port used twice"),
        (FabricFault::UnknownEnd { line }, "line 7: unknown far end"),
        (
            FabricFault::Unswitched { line },
            "line 7: adapter cabled to an adapter",
        ),
        (
            FabricFault::OneSided { line },
            "line 7: cable stated by one side only",
        ),
        (FabricFault::Lmc { line }, "line 7: lmc is not 0"),
        (FabricFault::BadLid { line }, "line 7: lid out of range"),
        (FabricFault::TwiceLid { line }, "line 7: lid used twice"),
        (FabricFault::TooManyLids, "too many lids"),
        (FabricFault::Memory(AllocError), "out of memory"),
    ] {
        assert_eq!(rt; format!(in rt.alloc(); "{fault}")?.as_str(), told);
    }
    let unknown = WithoutFault::UnknownCable { index: 3 };
    assert_eq!(rt;
        format!(in rt.alloc(); "{unknown}")?.as_str(),
        "cable 3: not in the fabric"
    );
    Ok(())
}
