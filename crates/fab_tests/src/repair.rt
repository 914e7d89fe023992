//! A list of failed cables as an operator writes it, its first bad line, and the first cable that isn't in the fabric.
use crate::fabrics::fabric_of;
use fab_model::Cable;
use fab_repair::{FailedFault, RepairFault, read_failed, repair};
use fab_tables::{Plan, Tables};
use std::test::Fail;

#[test]
fn reads_a_list(rt: HostRuntime) -> Result<(), Fail> {
    let text =
        b"# leaf-1 to core-1\n0x0c42a10300aa0010 21\r\n\n\t0xC42A10300AA0012 \t002 \n".as_slice();
    let cables = read_failed(rt.alloc(), text)?;
    let wanted = [
        Cable {
            guid: 0x0c42_a103_00aa_0010,
            port: 21,
        },
        Cable {
            guid: 0x0c42_a103_00aa_0012,
            port: 2,
        },
    ];
    assert_eq!(rt; cables.as_slice(), wanted.as_slice());
    Ok(())
}

#[test]
fn names_the_first_bad_line(rt: HostRuntime) {
    let text = b"#\n\n0x10 1\n0x10 1 # again\n0x10\n".as_slice();
    let read = read_failed(rt.alloc(), text);
    assert!(rt; matches!(read, Err(FailedFault::BadLine { line: 4 })));
}

#[test]
fn names_the_first_unknown_cable(rt: HostRuntime) -> Result<(), Fail> {
    let fabric = fabric_of(&rt, rt.alloc(), 2, 2, &[((0, 1), (1, 1))])?;
    let plan = Plan {
        tables: Tables::new(rt.alloc(), &fabric)?,
        lanes: None,
    };
    assert!(rt; plan.fits(&fabric));
    let known = Cable { guid: 2, port: 1 };
    let unknown = Cable { guid: 2, port: 2 };
    let repaired = repair(rt.alloc(), &fabric, &plan, &[known, unknown, unknown], 1);
    assert!(rt; matches!(repaired, Err(RepairFault::UnknownCable { index: 1 })));
    Ok(())
}
