//! A table of runs on a ring of five, with each call to the outside failing in turn: each fetch, each put to the output,
//! and the one to the error output; and with calls named to fail that never come.

use crate::running::{Failing, Left, run_of, run_with};
use fab_io::{MemoryShelf, MemorySink};
use std::alloc::Global;
use std::test::Fail;

/// The words of a run, and the names of the files that it fetches, in their order.
struct Row {
    words: &'static [&'static str],
    files: &'static [&'static str],
}

const ROWS: [Row; 11] = [
    Row {
        words: &["check", "RING", "PLAN"],
        files: &["RING", "PLAN"],
    },
    Row {
        words: &["route", "nue", "RING", "--lanes", "2"],
        files: &["RING"],
    },
    Row {
        words: &["certify", "RING", "PLAN"],
        files: &["RING", "PLAN"],
    },
    Row {
        words: &["repair", "RING", "PLAN", "NONE", "--lanes", "2"],
        files: &["RING", "PLAN", "NONE"],
    },
    Row {
        words: &["cut", "RING", "NONE"],
        files: &["RING", "NONE"],
    },
    Row {
        words: &["show", "RING", "PLAN", "5", "8"],
        files: &["RING", "PLAN"],
    },
    Row {
        words: &["load", "RING", "PLAN"],
        files: &["RING", "PLAN"],
    },
    Row {
        words: &["convert", "RING", "PLAN"],
        files: &["RING", "PLAN"],
    },
    Row {
        words: &["demo", "ring", "5", "1", "0", "lash", "2"],
        files: &[],
    },
    Row {
        words: &["sweep", "cables", "RING", "PLAN", "--lanes", "2"],
        files: &["RING", "PLAN"],
    },
    Row {
        words: &["transit", "RING", "PLAN", "AGAIN"],
        files: &["RING", "PLAN", "AGAIN"],
    },
];

fn is_same(one: &Left, other: &Left) -> bool {
    one.status == other.status
        && one.out.bytes() == other.out.bytes()
        && one.err.bytes() == other.err.bytes()
}

/// A ring of five and its plan by LASH on two lanes, as texts.
#[derive(Drop)]
struct Texts {
    ring: MemorySink,
    plan: MemorySink,
}

fn texts_of_ring(alloc: Global) -> Result<Texts, Fail> {
    let mut shelf = MemoryShelf::new(alloc);
    let ring = run_of(alloc, &mut shelf, &["gen", "ring", "5", "1", "0"])?;
    shelf.add("RING", ring.out.bytes())?;
    let words = &["route", "lash", "RING", "--lanes", "2"];
    let plan = run_of(alloc, &mut shelf, words)?;
    Ok(Texts {
        ring: ring.out,
        plan: plan.out,
    })
}

fn shelf_of(alloc: Global, texts: &Texts) -> Result<MemoryShelf, Fail> {
    let mut shelf = MemoryShelf::new(alloc);
    shelf.add("RING", texts.ring.bytes())?;
    shelf.add("PLAN", texts.plan.bytes())?;
    shelf.add("AGAIN", texts.plan.bytes())?;
    shelf.add("NONE", b"")?;
    Ok(shelf)
}

fn left_on_ring(
    alloc: Global,
    texts: &Texts,
    line: &[&str],
    failing: Failing,
) -> Result<Left, Fail> {
    let mut shelf = shelf_of(alloc, texts)?;
    run_with(alloc, &mut shelf, line, failing)
}

/// The line on a file that cannot be read.
fn unread_line(alloc: Global, name: &str) -> Result<String, Fail> {
    let mut line = String::from_str(alloc, name)?;
    line.push_str(": cannot be read\n")?;
    Ok(line)
}

#[test]
fn each_fetch_fails(rt: HostRuntime) -> Result<(), Fail> {
    let alloc = rt.alloc();
    let texts = texts_of_ring(alloc)?;
    for row in &ROWS {
        let whole = left_on_ring(alloc, &texts, row.words, Failing::Nothing)?;
        assert_eq!(rt; whole.status, 0);
        for call in 1..5 {
            let unread = left_on_ring(alloc, &texts, row.words, Failing::Fetch(call))?;
            let Some(name) = row.files.get(call as usize - 1) else {
                // No fetch has this number.
                assert!(rt; is_same(&unread, &whole));
                continue;
            };
            let line = unread_line(alloc, name)?;
            assert_eq!(rt; unread.status, 4);
            assert!(rt; unread.out.bytes().is_empty());
            assert_eq!(rt; unread.err.bytes(), line.as_bytes());
            let untold = left_on_ring(alloc, &texts, row.words, Failing::FetchAndLine(call))?;
            assert_eq!(rt; untold.status, 4);
            assert!(rt; untold.out.bytes().is_empty());
            assert_eq!(rt; untold.err.bytes().len(), 2);
            assert!(rt; line.as_bytes().starts_with(untold.err.bytes()));
        }
    }
    Ok(())
}

#[test]
fn each_put_fails(rt: HostRuntime) -> Result<(), Fail> {
    let alloc = rt.alloc();
    let texts = texts_of_ring(alloc)?;
    for row in &ROWS {
        let whole = left_on_ring(alloc, &texts, row.words, Failing::Nothing)?;
        for kept in [0, 5] {
            let mut passed = false;
            for call in 1..200 {
                let cut = left_on_ring(alloc, &texts, row.words, Failing::Output(call, kept))?;
                if cut.status != 5 {
                    // No put has this number.
                    assert!(rt; is_same(&cut, &whole));
                    passed = true;
                    break;
                }
                assert!(rt; whole.out.bytes().starts_with(cut.out.bytes()));
                assert!(rt; cut.err.bytes().is_empty());
            }
            assert!(rt; passed);
        }
        // No run puts so often to the error output.
        let uncut = left_on_ring(alloc, &texts, row.words, Failing::Error(9, 0))?;
        assert!(rt; is_same(&uncut, &whole));
    }
    Ok(())
}

#[test]
fn the_kept_line_fails(rt: HostRuntime) -> Result<(), Fail> {
    let alloc = rt.alloc();
    let texts = texts_of_ring(alloc)?;
    let words = &["repair", "RING", "PLAN", "NONE", "--lanes", "2"];
    let whole = left_on_ring(alloc, &texts, words, Failing::Nothing)?;
    let cut = left_on_ring(alloc, &texts, words, Failing::Error(1, 4))?;
    assert_eq!(rt; cut.status, 5);
    assert_eq!(rt; cut.out.bytes(), whole.out.bytes());
    assert_eq!(rt; cut.err.bytes(), b"kept".as_slice());
    Ok(())
}
