//! What no clause says: that the commands succeed where memory is left, and that a fault of the outside passes with its
//! run.
use crate::running::{Failing, run_of, run_with};
use fab_io::{MemoryShelf, MemorySink};
use std::alloc::Global;
use std::test::Fail;

// three switches in a row, and one terminal at the first
const LINE: &[u8] = b"Switch 4 \"S-0000000000000010\" # \"a\" base port 0 lid 1 lmc 0
[1] \"S-0000000000000011\"[1] # \"b\" lid 2
[2] \"H-0000000000000020\"[1](20) # \"n0\" lid 4
Switch 4 \"S-0000000000000011\" # \"b\" base port 0 lid 2 lmc 0
[1] \"S-0000000000000010\"[1] # \"a\" lid 1
[2] \"S-0000000000000012\"[1] # \"c\" lid 3
Switch 4 \"S-0000000000000012\" # \"c\" base port 0 lid 3 lmc 0
[1] \"S-0000000000000011\"[2] # \"b\" lid 2
Ca 1 \"H-0000000000000020\" # \"n0\"
[1](20) \"S-0000000000000010\"[2] # lid 4 lmc 0 \"a\" lid 1
";

// a plan whose numbers do not rise
const LEVEL: &[u8] = b"fabroute plan 2
lanes 1
Unicast lids [0x0001-0x0004] of switch Lid 1 guid 0x0000000000000010 (a):
0x0001 000 001 001 002
Unicast lids [0x0001-0x0004] of switch Lid 2 guid 0x0000000000000011 (b):
0x0001 001 000 002 001
Unicast lids [0x0001-0x0004] of switch Lid 3 guid 0x0000000000000012 (c):
0x0001 001 001 000 001
Levels of switch guid 0x0000000000000010:
0x0001 00 00 00 00
Lane map of switch guid 0x0000000000000010:
00 15 15 15 15 15 15 15 15 15 15 15 15 15 15 15
Lane map of switch guid 0x0000000000000011:
00 15 15 15 15 15 15 15 15 15 15 15 15 15 15 15
Lane map of switch guid 0x0000000000000012:
00 15 15 15 15 15 15 15 15 15 15 15 15 15 15 15
Certificate:
0x0000000000000010 001 00 1
0x0000000000000011 002 00 1
end plan
";

fn shelf_of_line(alloc: Global) -> Result<MemoryShelf, Fail> {
    let mut shelf = MemoryShelf::new(alloc);
    shelf.add("LINE", LINE)?;
    shelf.add("LEVEL", LEVEL)?;
    Ok(shelf)
}

#[test]
fn what_is_certified_is_checked_and_converted(rt: HostRuntime) -> Result<(), Fail> {
    let alloc = rt.alloc();
    let mut shelf = shelf_of_line(alloc)?;
    let plan = run_of(alloc, &mut shelf, &["certify", "LINE", "LEVEL"])?;
    assert_eq!(rt; plan.status, 0);
    shelf.add("P", plan.out.bytes())?;
    let verdict = run_of(alloc, &mut shelf, &["check", "LINE", "P"])?;
    assert_eq!(rt; verdict.status, 0);
    assert_eq!(rt; verdict.out.bytes(), b"ok: routes and lanes\n".as_slice());
    let again = run_of(alloc, &mut shelf, &["convert", "LINE", "P"])?;
    assert_eq!(rt; again.status, 0);
    assert_eq!(rt; again.out.bytes(), plan.out.bytes());
    Ok(())
}

#[test]
fn faults_of_the_outside_pass(rt: HostRuntime) -> Result<(), Fail> {
    let alloc = rt.alloc();
    let mut shelf = shelf_of_line(alloc)?;
    let words = &["convert", "LINE", "LEVEL"];
    let unread = run_with(alloc, &mut shelf, words, Failing::Fetch(2))?;
    assert_eq!(rt; unread.status, 4);
    let cut = run_with(alloc, &mut shelf, words, Failing::Output(2, 3))?;
    assert_eq!(rt; cut.status, 5);
    assert_eq!(rt;
        cut.out.bytes(),
        b"fabroute plan 2\nlanes 1\nUni".as_slice()
    );
    let whole = run_of(alloc, &mut shelf, words)?;
    assert_eq!(rt; whole.status, 0);
    Ok(())
}

#[test]
fn a_fabric_without_failed_cables_is_as_it_was(rt: HostRuntime) -> Result<(), Fail> {
    let alloc = rt.alloc();
    let mut shelf = MemoryShelf::new(alloc);
    let ring = run_of(alloc, &mut shelf, &["gen", "ring", "5", "1", "0"])?;
    assert_eq!(rt; ring.status, 0);
    shelf.add("RING", ring.out.bytes())?;
    shelf.add("NONE", b"")?;
    let left = run_of(alloc, &mut shelf, &["cut", "RING", "NONE"])?;
    assert_eq!(rt; left.status, 0);
    assert_eq!(rt; left.out.bytes(), ring.out.bytes());
    Ok(())
}

/// The verdict on the plan that these words write.
fn verdict_on_plan(alloc: Global, line: &[&str]) -> Result<MemorySink, Fail> {
    let mut shelf = shelf_of_line(alloc)?;
    let plan = run_of(alloc, &mut shelf, line)?;
    shelf.add("P", plan.out.bytes())?;
    let verdict = run_of(alloc, &mut shelf, &["check", "LINE", "P"])?;
    Ok(verdict.out)
}

#[test]
fn what_is_routed_is_good(rt: HostRuntime) -> Result<(), Fail> {
    let alloc = rt.alloc();
    for engine in ["minhop", "dor", "sssp"] {
        let verdict = verdict_on_plan(alloc, &["route", engine, "LINE"])?;
        assert_eq!(rt; verdict.bytes(), b"ok: routes\n".as_slice());
    }
    let verdict = verdict_on_plan(alloc, &["route", "updn", "LINE", "--root", "0x11"])?;
    assert_eq!(rt; verdict.bytes(), b"ok: routes and lanes\n".as_slice());
    for engine in ["lash", "dfsssp", "nue"] {
        let verdict = verdict_on_plan(alloc, &["route", engine, "LINE", "--lanes", "1"])?;
        assert_eq!(rt; verdict.bytes(), b"ok: routes and lanes\n".as_slice());
    }
    Ok(())
}

#[test]
fn the_counts_of_a_routed_ring(rt: HostRuntime) -> Result<(), Fail> {
    let alloc = rt.alloc();
    let mut shelf = MemoryShelf::new(alloc);
    let words = &["demo", "ring", "5", "1", "0", "dor", "0"];
    let counts = run_of(alloc, &mut shelf, words)?;
    assert_eq!(rt; counts.status, 0);
    assert_eq!(rt;
        counts.out.bytes(),
        b"switches 5\nterminals 5\nchannels 10\nlids 10\nlanes 0\nnumbers 0\ngreatest number 0\nhops 60\ngreatest load 6\nok: routes\n".as_slice()
    );
    Ok(())
}
