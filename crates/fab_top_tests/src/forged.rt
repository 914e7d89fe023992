//! A table of forged texts: a fabric text or a plan text with one line changed or left out, and what `check` says of it.

use crate::running::{Left, run_of};
use fab_io::MemoryShelf;
use std::alloc::Global;
use std::test::Fail;

// one switch with two terminals
const ONE: [&str; 7] = [
    "Switch 4 \"S-0000000000000010\" # \"sw\" base port 0 lid 1 lmc 0",
    "[1] \"H-0000000000000020\"[1](20) # \"n0\" lid 2 4xSDR",
    "[2] \"H-0000000000000021\"[1](21) # \"n1\" lid 3 4xSDR",
    "Ca 1 \"H-0000000000000020\" # \"n0\"",
    "[1](20) \"S-0000000000000010\"[1] # lid 2 lmc 0 \"sw\" lid 1 4xSDR",
    "Ca 1 \"H-0000000000000021\" # \"n1\"",
    "[1](21) \"S-0000000000000010\"[2] # lid 3 lmc 0 \"sw\" lid 1 4xSDR",
];

const DUMP: [&str; 4] = [
    "Unicast lids [0x0001-0x0003] of switch Lid 1 guid 0x0000000000000010 (sw):",
    "0x0001 000 : (Switch portguid 0x0000000000000010: 'sw')",
    "0x0002 001 : (Channel Adapter portguid 0x0000000000000020: 'n0')",
    "0x0003 002 : (Channel Adapter portguid 0x0000000000000021: 'n1')",
];

// a plan of two switches and one terminal at the first
const PLAN: [&str; 21] = [
    "fabroute plan 1",
    "lanes 1",
    "Unicast lids [0x0001-0x0003] of switch Lid 1 guid 0x0000000000010000 (switch 0):",
    "0x0001 000 :",
    "0x0002 001 :",
    "0x0003 002 :",
    "Unicast lids [0x0001-0x0003] of switch Lid 2 guid 0x0000000000010001 (switch 1):",
    "0x0001 001 :",
    "0x0002 000 :",
    "0x0003 001 :",
    "Levels of switch guid 0x0000000000010000:",
    "0x0001 00",
    "0x0002 00",
    "0x0003 00",
    "Lane map of switch guid 0x0000000000010000:",
    "00 15 15 15 15 15 15 15 15 15 15 15 15 15 15 15",
    "Lane map of switch guid 0x0000000000010001:",
    "00 15 15 15 15 15 15 15 15 15 15 15 15 15 15 15",
    "Certificate:",
    "0x0000000000010000 001 00 1",
    "end plan",
];

/// A change of a line, by its number from 1: another text, or none. The status and the line that is said of it.
struct Row {
    line: usize,
    text: Option<&'static str>,
    status: u8,
    said: &'static str,
}

const FABRICS: [Row; 8] = [
    Row {
        line: 3,
        text: None,
        status: 3,
        said: "ONE:6: cable stated by one side only\n",
    },
    Row {
        line: 7,
        text: None,
        status: 3,
        said: "ONE:3: cable stated by one side only\n",
    },
    Row {
        line: 3,
        text: Some("[5] \"H-0000000000000021\"[1](21) # \"n1\" lid 3 4xSDR"),
        status: 3,
        said: "ONE:3: port out of range\n",
    },
    Row {
        line: 3,
        text: Some("[1] \"H-0000000000000021\"[1](21) # \"n1\" lid 3 4xSDR"),
        status: 3,
        said: "ONE:3: port used twice\n",
    },
    Row {
        line: 4,
        text: Some("Ca 1 \"H-0000000000000010\" # \"n0\""),
        status: 3,
        said: "ONE:4: guid used twice\n",
    },
    Row {
        line: 7,
        text: Some("[1](21) \"H-0000000000000020\"[1] # lid 3 lmc 0 \"sw\" lid 1 4xSDR"),
        status: 3,
        said: "ONE:7: adapter cabled to an adapter\n",
    },
    Row {
        line: 7,
        text: Some("[1](21) \"S-0000000000000010\"[2] # lid 2 lmc 0 \"sw\" lid 1 4xSDR"),
        status: 3,
        said: "ONE:7: lid used twice\n",
    },
    Row {
        line: 7,
        text: Some("[1](21) \"S-0000000000000010\"[2] # lid 49152 lmc 0 \"sw\" lid 1 4xSDR"),
        status: 3,
        said: "ONE:7: lid out of range\n",
    },
];

const PLANS: [Row; 10] = [
    Row {
        line: 1,
        text: Some("fabroute plan 9"),
        status: 3,
        said: "P:1: unknown version\n",
    },
    Row {
        line: 12,
        text: Some("0x0001 16"),
        status: 3,
        said: "P:12: bad level row\n",
    },
    Row {
        line: 16,
        text: Some("00 15 15 15 15 15 15 15 15 15 15 15 15 15 15"),
        status: 3,
        said: "P:16: bad lane row\n",
    },
    Row {
        line: 17,
        text: Some("Lane map of switch guid 0x0000000000010000:"),
        status: 3,
        said: "P:17: block given twice\n",
    },
    Row {
        line: 20,
        text: Some("0x0000000000010000 001 00 0"),
        status: 3,
        said: "P:20: bad number row\n",
    },
    Row {
        line: 20,
        text: Some("0x0000000000010000 001 15 1"),
        status: 3,
        said: "P:20: bad number row\n",
    },
    Row {
        line: 21,
        text: None,
        status: 3,
        said: "P: no end\n",
    },
    Row {
        line: 12,
        text: Some("0x0001 --"),
        status: 1,
        said: "no: lid 0x0001 from switch 0x0000000000010000: no level\n",
    },
    Row {
        line: 16,
        text: Some("15 15 15 15 15 15 15 15 15 15 15 15 15 15 15 15"),
        status: 1,
        said: "no: lid 0x0002 from switch 0x0000000000010000: bad lane at switch 0x0000000000010000\n",
    },
    Row {
        line: 20,
        text: None,
        status: 1,
        said: "no: lid 0x0002 from switch 0x0000000000010000: no number at 0x0000000000010000 001 00\n",
    },
];

/// Lines as a text, with one of them changed.
fn text_of(alloc: Global, lines: &[&str], row: Option<&Row>) -> Result<Vec<u8>, Fail> {
    let mut text = Vec::new(alloc);
    for at in 0..lines.len() {
        let mut line = Some(lines[at]);
        if let Some(row) = row {
            if row.line == at + 1 {
                line = row.text;
            }
        }
        if let Some(line) = line {
            text.extend_from_slice(line.as_bytes())?;
            text.push(b'\n')?;
        }
    }
    Ok(text)
}

/// What `check` says of a fabric text with the dump of one switch.
fn check_fabric(alloc: Global, text: &[u8]) -> Result<Left, Fail> {
    let mut shelf = MemoryShelf::new(alloc);
    shelf.add("ONE", text)?;
    shelf.add("DUMP", &text_of(alloc, &DUMP, None)?)?;
    run_of(alloc, &mut shelf, &["check", "ONE", "DUMP"])
}

/// What `check` says of a plan text with the fabric of two switches.
fn check_plan(alloc: Global, text: &[u8]) -> Result<Left, Fail> {
    let mut shelf = MemoryShelf::new(alloc);
    let fabric = run_of(alloc, &mut shelf, &["gen", "tree", "1", "1", "0"])?;
    shelf.add("STUB", fabric.out.bytes())?;
    shelf.add("P", text)?;
    run_of(alloc, &mut shelf, &["check", "STUB", "P"])
}

#[test]
fn forged_fabrics(rt: HostRuntime) -> Result<(), Fail> {
    let alloc = rt.alloc();
    let whole = check_fabric(alloc, &text_of(alloc, &ONE, None)?)?;
    assert_eq!(rt; whole.out.bytes(), b"ok: routes\n".as_slice());
    for row in &FABRICS {
        let left = check_fabric(alloc, &text_of(alloc, &ONE, Some(row))?)?;
        assert_eq!(rt; left.status, row.status);
        assert!(rt; left.out.bytes().is_empty());
        assert_eq!(rt; left.err.bytes(), row.said.as_bytes());
    }
    Ok(())
}

#[test]
fn forged_plans(rt: HostRuntime) -> Result<(), Fail> {
    let alloc = rt.alloc();
    let whole = check_plan(alloc, &text_of(alloc, &PLAN, None)?)?;
    assert_eq!(rt; whole.out.bytes(), b"ok: routes and lanes\n".as_slice());
    for row in &PLANS {
        let left = check_plan(alloc, &text_of(alloc, &PLAN, Some(row))?)?;
        assert_eq!(rt; left.status, row.status);
        assert!(rt; left.out.bytes().is_empty());
        assert_eq!(rt; left.err.bytes(), row.said.as_bytes());
    }
    Ok(())
}

#[test]
fn as_many_line_feeds_as_are_read(rt: HostRuntime) -> Result<(), Fail> {
    let alloc = rt.alloc();
    let mut text = vec![in alloc; b'\n'; 67_108_864]?;
    let left = check_fabric(alloc, &text)?;
    assert_eq!(rt; left.status, 3);
    assert_eq!(rt; left.err.bytes(), b"ONE: no switch\n".as_slice());
    text.push(b'\n')?;
    let left = check_fabric(alloc, &text)?;
    assert_eq!(rt; left.status, 3);
    assert_eq!(rt; left.err.bytes(), b"ONE: too long\n".as_slice());
    Ok(())
}
