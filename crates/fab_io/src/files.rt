//! Real files, and standard input, as a shelf.
ghost use Rattle.std.specs.Prelude.{◌≡◌, ◌+◌, ◌≤◌, None, [], length, IfOk};
ghost use Rattle.fab_io.specs.Shelf.{Fetches};
ghost use Rattle.fab_io.specs.Reading.{TakesAtMost, AppendsRead, ReadsWhole};

use crate::{FetchFault, Shelf};
use std::fs;
use std::io::Read;
use std::marker::Model;
use std::rt::Files;

/// Real files by their paths; the name `-` is standard input, of which each fetch finds what is left. It
/// tells nothing of contents, and has one count for all names, which rises at each error. A value is seen
/// as that count.
#[derive(Drop)]
pub struct FileShelf<'r, R: Files + Input> {
    rt: &'r R,
    faults: u64,
}

impl<'r, R: Files + Input> Model for FileShelf<'r, R> {
    ghost use Rattle.std.specs.Prelude.{ℕ};

    ghost Value = { ℕ };

    ghost view = { λ s. s.faults };
}

/// Appends the bytes of one read, and answers how many they are.
fn append_read<I: Read>(
    reader: &mut I,
    chunk: &mut [u8],
    into: &mut Vec<u8>,
) -> Result<usize, FetchFault>
    ensures ok { IfOk result (λ count. AppendsRead (I.remaining reader.old) (I.remaining reader.new) (length chunk.old) into.old.items into.new.items count) }
    ensures taken { TakesAtMost (I.remaining reader.old) (I.remaining reader.new) (length chunk.old) }
{
    let count = reader.read(chunk).map_err(|_| FetchFault::Failed)?;
    into.extend_from_slice(&chunk[..count])
        .map_err(FetchFault::Memory)?;
    Ok(count)
}

/// Appends all that is left of a reader, and answers true, or more than the limit, and answers false.
fn append_whole<I: Read>(
    reader: &mut I,
    limit: usize,
    into: &mut Vec<u8>,
) -> Result<bool, FetchFault>
    requires limit { limit ≤ 536870912 }
    requires empty { into.old.items ≡ [] }
    ensures ok { IfOk result (ReadsWhole (I.remaining reader.old) limit into.new.items) }
    ensures taken { TakesAtMost (I.remaining reader.old) (I.remaining reader.new) (limit + 1) }
{
    let mut chunk = [0; 4096];
    while into.len() <= limit {
        let room = chunk.len().min(limit + 1 - into.len());
        if append_read(reader, &mut chunk[..room], into)? == 0 {
            return Ok(true);
        }
    }
    Ok(false)
}

/// Fetches all that is left of a reader.
pub(crate) fn fetch_from<I: Read>(
    reader: &mut I,
    limit: usize,
    into: &mut Vec<u8>,
) -> Result<bool, FetchFault>
    requires { limit ≤ 536870912 }
    ensures content { Fetches (I.remaining reader.old) limit result into.new.items }
    ensures taken { TakesAtMost (I.remaining reader.old) (I.remaining reader.new) (limit + 1) }
{
    into.clear();
    let result = append_whole(reader, limit, into);
    if !matches!(result, Ok(true)) {
        into.clear();
    }
    result
}

impl<'r, R: Files + Input> FileShelf<'r, R> {
    /// The files that a runtime reaches.
    pub fn new(rt: &'r R) -> FileShelf<'r, R>
        ensures { result ≡ 0 }
    {
        FileShelf { rt, faults: 0 }
    }

    fn fetch_named(&self, name: &str, limit: usize, into: &mut Vec<u8>) -> Result<bool, FetchFault>
        requires { limit ≤ 536870912 }
        ensures { Fetches None limit result into.new.items }
    {
        if name == "-" {
            let mut reader = self.rt.reader();
            return fetch_from(&mut reader, limit, into);
        }
        match fs::open(self.rt, name) {
            Ok(mut file) => fetch_from(&mut file, limit, into),
            Err(_) => {
                into.clear();
                Err(FetchFault::Failed)
            }
        }
    }
}

impl<'r, R: Files + Input> Shelf for FileShelf<'r, R> {
    ghost told = { λ _ _. None };

    ghost faults = { λ s _. s };

    fn fetch(&mut self, name: &str, limit: usize, into: &mut Vec<u8>) -> Result<bool, FetchFault> {
        let result = self.fetch_named(name, limit, into);
        if matches!(result, Err(FetchFault::Failed)) {
            self.faults = self.faults.saturating_add(1);
        }
        result
    }
}
