//! A shelf of contents in memory, some of whose fetches are named to fail.
ghost use Rattle.std.specs.Prelude.{◌≡◌, ◌≤◌, ◌++◌, [], ◌∷◌, OnOk, OnErr, ◌==◌, map, string_bytes, option_map};
ghost use Rattle.std.specs.List.{list_any};
ghost use Rattle.fab_io.specs.Shelf.{Fetches, CountsFetch, NoneFell};
ghost use Rattle.fab_io.specs.MemoryShelf.{content_of, count_for, FailsAsNamed, after_fetch, content_in};

use crate::{FetchFault, Shelf};
use std::alloc::{AllocError, Global};
use std::marker::Model;

#[derive(Drop)]
struct Entry {
    name: String,
    content: Vec<u8>,
}

/// A shelf in memory, which tells each content that was added. Every fetch takes a number, counted from 1,
/// whatever it answers. It fails exactly where its number was named or its name was never added. One count
/// of failures serves all names. A fetch takes time for the names added, the fetches named and the content, and
/// room for the content.
#[derive(Drop)]
pub struct MemoryShelf {
    entries: Vec<Entry>,
    failing: Vec<u32>,
    fetches: u64,
    faults: u64,
}

impl Model for MemoryShelf {
    ghost use Rattle.fab_io.specs.MemoryShelf.{Shelved};

    ghost Value = { Shelved };

    ghost use Rattle.std.specs.Prelude.{map, string_bytes};

    ghost view = { λ s. record { entries = map (λ entry. record { name = string_bytes entry.name; content = entry.content.items }) s.entries.items; failing = s.failing.items; fetches = s.fetches; faults = s.faults } };
}

/// Whether a fetch is named to fail.
fn is_named(failing: &[u32], call: u64) -> bool
    ensures { result ≡ list_any (λ named. named == call) failing.now }
{
    failing.iter().any(|named| u64::from(*named) == call)
}

/// The newest content of a name.
fn newest<'a>(entries: &'a [Entry], name: &str) -> Option<&'a [u8]>
    ensures { option_map (λ content. content.now) result ≡ content_in (map (λ entry. record { name = string_bytes entry.name; content = entry.content.items }) entries.now) name.now }
{
    let mut older = entries;
    while let [front @ .., entry] = older {
        if entry.name.as_str() == name {
            return Some(&entry.content);
        }
        older = front;
    }
    None
}

impl MemoryShelf {
    /// A shelf without names and without named fetches.
    pub fn new(alloc: Global) -> MemoryShelf
        ensures { result ≡ record { entries = []; failing = []; fetches = 0; faults = 0 } }
    {
        MemoryShelf {
            entries: Vec::new(alloc),
            failing: Vec::new(alloc),
            fetches: 0,
            faults: 0,
        }
    }

    /// Adds a name with its content. A name that is added again has its newest content.
    pub fn add(&mut self, name: &str, bytes: &[u8]) -> Result<(), AllocError>
        ensures ok { OnOk result (self.new ≡ record self.old { entries = self.old.entries ++ record { name = name.now; content = bytes.now } ∷ [] }) }
        ensures err { OnErr result (self.new ≡ self.old) }
    {
        let alloc = *self.entries.allocator();
        let entry = Entry {
            name: String::from_str(alloc, name)?,
            content: Vec::from_slice(alloc, bytes)?,
        };
        self.entries.push(entry)?;
        Ok(())
    }

    /// Names a fetch that is to fail, by its number.
    pub fn fail(&mut self, call: u32) -> Result<(), AllocError>
        ensures ok { OnOk result (self.new ≡ record self.old { failing = self.old.failing ++ call ∷ [] }) }
        ensures err { OnErr result (self.new ≡ self.old) }
    {
        self.failing.push(call)?;
        Ok(())
    }
}

impl Shelf for MemoryShelf {
    ghost told = { content_of };

    ghost faults = { count_for };

    fn fetch(&mut self, name: &str, limit: usize, into: &mut Vec<u8>) -> Result<bool, FetchFault>
        requires { limit ≤ 536870912 }
        ensures content { Fetches (content_of self.old name.now) limit result into.new.items }
        ensures told_stays { content_of self.new ≡ content_of self.old }
        ensures cause { CountsFetch name.now (count_for self.old) (count_for self.new) result }
        ensures none_fell { NoneFell (count_for self.old) (count_for self.new) }
        ensures as_named { FailsAsNamed self.old name.now result }
        ensures state { self.new ≡ after_fetch self.old result }
    {
        into.clear();
        self.fetches = self.fetches.saturating_add(1);
        if is_named(&self.failing, self.fetches) {
            self.faults = self.faults.saturating_add(1);
            return Err(FetchFault::Failed);
        }
        let Some(content) = newest(&self.entries, name) else {
            self.faults = self.faults.saturating_add(1);
            return Err(FetchFault::Failed);
        };
        if content.len() > limit {
            return Ok(false);
        }
        into.extend_from_slice(content).map_err(FetchFault::Memory)?;
        Ok(true)
    }
}
