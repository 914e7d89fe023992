//! A text as `ibnetdiscover` prints it, read, built and written; and each kind of fault once.
use fab_model::{Fabric, Raw};
use fab_netdiscover::{BadKind, ReadFault, read, write};
use std::alloc::Global;
use std::process::Abort;
use std::test::Fail;

fn read_of(rt: &impl Abort, alloc: Global, text: &[u8]) -> Result<Raw, ReadFault> {
    assert!(rt; text.len() <= 67_108_864);
    read(alloc, text)
}

/// The line of a fault, and its kind where a part has another form.
fn fault_of(read: Result<Raw, ReadFault>) -> Option<(u32, Option<BadKind>)> {
    match read {
        Err(ReadFault::BadLine { line, kind }) => Some((line, Some(kind))),
        Err(ReadFault::Router { line } | ReadFault::Stray { line }) => Some((line, None)),
        _ => None,
    }
}

#[test]
fn faulty_lines(rt: HostRuntime) {
    for (text, line, kind) in [
        ("Switch \"S-10\"", 1, Some(BadKind::Ports)),
        ("\nCa 1 \"S-20\"", 2, Some(BadKind::Name)),
        (
            "Switch 4 \"S-10\" # \"sw lid",
            1,
            Some(BadKind::Description),
        ),
        (
            "Switch 4 \"S-10\" # \"sw\" lid lid 1",
            1,
            Some(BadKind::Lid),
        ),
        ("Ca 1 \"H-20\"\n\n[ 1] \"S-10\"[1]", 3, Some(BadKind::Port)),
        ("Ca 1 \"H-20\"\n[1] \"R-10\"[q]", 2, None),
        ("vendid=0x2c9\r\n \t[", 2, None),
    ] {
        let read = read_of(&rt, rt.alloc(), text.as_bytes());
        assert_eq!(rt; fault_of(read), Some((line, kind)), "{text}");
    }
}

/// Two leaves and a core with two adapters, and a cable from a switch to itself.
const LEAVES_AND_CORE: &[u8] = b"#
# Topology file: generated on Tue Mar  3 09:12:44 2020
#
Chassis 1

vendid=0x2c9
devid=0xd2f0
sysimgguid=0xc42a10300aa0010
switchguid=0xc42a10300aa0010(c42a10300aa0010)
Switch\t40 \"S-0c42a10300aa0010\"\t\t# \"leaf-1\" enhanced port 0 lid 1 lmc 0
[1]\t\"H-0c42a10300bb0020\"[1](c42a10300bb0020) \t\t# \"node01 mlx5_0\" lid 4 4xHDR
[21][ext 3]\t\"S-0c42a10300aa0012\"[1][ext 1]\t\t# \"core-1\" lid 3 4xHDR
[30]\t\"S-0c42a10300aa0010\"[31]\t\t# \"leaf-1\" lid 1 4xHDR
[31]\t\"S-0c42a10300aa0010\"[30]\t\t# \"leaf-1\" lid 1 4xHDR

vendid=0x2c9
Switch\t40 \"S-0c42a10300aa0011\"\t\t# \"leaf-2\" enhanced port 0 lid 2 lmc 0
[1]\t\"H-0c42a10300bb0020\"[2](c42a10300bb0021) \t\t# \"node01 mlx5_0\" lid 5 4xHDR
[2]\t\"H-0c42a10300bb0030\"[1](c42a10300bb0030) \t\t# \"node02 mlx5_0\" lid 6 4xHDR
[21]\t\"S-0c42a10300aa0012\"[2]\t\t# \"core-1\" lid 3 4xHDR
[22]\t\"S-0c42a10300aa0012\"[3]\t\t# \"core-1\" lid 3 4xHDR

vendid=0x2c9
Switch\t40 \"S-0c42a10300aa0012\"\t\t# \"core-1\" base port 0 lid 3 lmc 0
[1][ext 1]\t\"S-0c42a10300aa0010\"[21][ext 3]\t\t# \"leaf-1\" lid 1 4xHDR
[2]\t\"S-0c42a10300aa0011\"[21]\t\t# \"leaf-2\" lid 2 4xHDR
[3]\t\"S-0c42a10300aa0011\"[22]\t\t# \"leaf-2\" lid 2 4xHDR

caguid=0xc42a10300bb0020
Ca\t2 \"H-0c42a10300bb0020\"\t\t# \"node01 mlx5_0\"
[1](c42a10300bb0020) \t\"S-0c42a10300aa0010\"[1]\t\t# lid 4 lmc 0 \"leaf-1\" lid 1 4xHDR
[2](c42a10300bb0021) \t\"S-0c42a10300aa0011\"[1]\t\t# lid 5 lmc 0 \"leaf-2\" lid 2 4xHDR

caguid=0xc42a10300bb0030
Ca\t1 \"H-0c42a10300bb0030\"\t\t# \"node02 mlx5_0\"
[1](c42a10300bb0030) \t\"S-0c42a10300aa0011\"[2]\t\t# lid 6 lmc 0 \"leaf-2\" lid 2 4xHDR
";

/// The same as it is written: without that cable, and without extended ports and speeds.
const WRITTEN: &[u8] = b"Switch\t40 \"S-0c42a10300aa0010\"\t\t# \"leaf-1\" base port 0 lid 1 lmc 0
[1]\t\"H-0c42a10300bb0020\"[1](c42a10300bb0020)\t\t# \"node01 mlx5_0\" lid 4
[21]\t\"S-0c42a10300aa0012\"[1]\t\t# \"core-1\" lid 3

Switch\t40 \"S-0c42a10300aa0011\"\t\t# \"leaf-2\" base port 0 lid 2 lmc 0
[1]\t\"H-0c42a10300bb0020\"[2](c42a10300bb0021)\t\t# \"node01 mlx5_0\" lid 5
[2]\t\"H-0c42a10300bb0030\"[1](c42a10300bb0030)\t\t# \"node02 mlx5_0\" lid 6
[21]\t\"S-0c42a10300aa0012\"[2]\t\t# \"core-1\" lid 3
[22]\t\"S-0c42a10300aa0012\"[3]\t\t# \"core-1\" lid 3

Switch\t40 \"S-0c42a10300aa0012\"\t\t# \"core-1\" base port 0 lid 3 lmc 0
[1]\t\"S-0c42a10300aa0010\"[21]\t\t# \"leaf-1\" lid 1
[2]\t\"S-0c42a10300aa0011\"[21]\t\t# \"leaf-2\" lid 2
[3]\t\"S-0c42a10300aa0011\"[22]\t\t# \"leaf-2\" lid 2

Ca\t2 \"H-0c42a10300bb0020\"\t\t# \"node01 mlx5_0\"
[1](c42a10300bb0020)\t\"S-0c42a10300aa0010\"[1]\t\t# lid 4 lmc 0 \"leaf-1\" lid 1
[2](c42a10300bb0021)\t\"S-0c42a10300aa0011\"[1]\t\t# lid 5 lmc 0 \"leaf-2\" lid 2

Ca\t1 \"H-0c42a10300bb0030\"\t\t# \"node02 mlx5_0\"
[1](c42a10300bb0030)\t\"S-0c42a10300aa0011\"[2]\t\t# lid 6 lmc 0 \"leaf-2\" lid 2

";

#[test]
fn three_switches(rt: HostRuntime) -> Result<(), Fail> {
    let raw = read_of(&rt, rt.alloc(), LEAVES_AND_CORE)?;
    let fabric = Fabric::build(rt.alloc(), &raw)?;
    let text = write(rt.alloc(), &fabric)?;
    assert_eq!(rt; text.as_slice(), WRITTEN);
    Ok(())
}
