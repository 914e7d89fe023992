//! Runs of the program on files and outputs in memory, where calls to the outside may fail.
use fab_io::{MemoryShelf, MemorySink};
use fab_top::run;
use std::alloc::Global;
use std::test::Fail;

/// The call that fails: by its number, and after how many bytes.
#[derive(Clone, Copy)]
pub enum Failing {
    Nothing,
    Fetch(u32),
    /// A fetch, and the put of the line that tells it, after two bytes.
    FetchAndLine(u32),
    Output(u32, usize),
    Error(u32, usize),
}

/// What a run leaves.
#[derive(Drop)]
pub struct Left {
    pub status: u8,
    pub out: MemorySink,
    pub err: MemorySink,
}

/// A run of these words.
pub fn run_of(alloc: Global, shelf: &mut MemoryShelf, line: &[&str]) -> Result<Left, Fail> {
    run_with(alloc, shelf, line, Failing::Nothing)
}

/// A run of these words in which a call fails.
pub fn run_with(
    alloc: Global,
    shelf: &mut MemoryShelf,
    line: &[&str],
    failing: Failing,
) -> Result<Left, Fail> {
    let mut words = Vec::new(alloc);
    for word in line {
        words.push(String::from_str(alloc, word)?)?;
    }
    let mut out = MemorySink::new(alloc);
    let mut err = MemorySink::new(alloc);
    match failing {
        Failing::Nothing => {}
        Failing::Fetch(call) => shelf.fail(call)?,
        Failing::FetchAndLine(call) => {
            shelf.fail(call)?;
            err.fail(1, 2)?;
        }
        Failing::Output(call, kept) => out.fail(call, kept)?,
        Failing::Error(call, kept) => err.fail(call, kept)?,
    }
    let status = run(alloc, &words, shelf, &mut out, &mut err);
    Ok(Left { status, out, err })
}
