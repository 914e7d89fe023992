//! A sink in memory, some of whose puts are named to fail.
ghost use Rattle.std.specs.Prelude.{◌≡◌, ◌≢◌, ◌≤◌, ◌++◌, [], ◌∷◌, OnOk, OnErr, Ok, map};
ghost use Rattle.fab_io.specs.Sink.{Puts, CountsPut};
ghost use Rattle.fab_io.specs.MemorySink.{bytes_told, PutsAsNamed, kept_at};

use crate::{PutFault, Sink};
use std::alloc::{AllocError, Global};
use std::marker::Model;

#[derive(Clone, Copy)]
struct Failing {
    call: u32,
    kept: usize,
}

/// A sink in memory, which tells all its bytes. Every put of a piece that isn't empty takes a number, counted
/// from 1, whatever it answers. It fails exactly where its number was named. A put takes time for its piece and
/// the named puts, and room for its piece.
#[derive(Drop)]
pub struct MemorySink {
    bytes: Vec<u8>,
    failing: Vec<Failing>,
    puts: u64,
    faults: u64,
}

impl Model for MemorySink {
    ghost use Rattle.fab_io.specs.MemorySink.{Held};

    ghost Value = { Held };

    ghost use Rattle.std.specs.Prelude.{map};

    ghost view = { λ s. record { bytes = s.bytes.items; failing = map (λ named. record { call = named.call; kept = named.kept }) s.failing.items; puts = s.puts; faults = s.faults } };
}

/// How many bytes the put of a number keeps, where it is to fail.
fn kept_at(failing: &[Failing], call: u64) -> Option<usize>
    ensures { result ≡ kept_at (map (λ named. record { call = named.call; kept = named.kept }) failing.now) call }
{
    let mut older = failing;
    while let [front @ .., named] = older {
        if u64::from(named.call) == call {
            return Some(named.kept);
        }
        older = front;
    }
    None
}

impl MemorySink {
    /// A sink without bytes and without named puts.
    pub fn new(alloc: Global) -> MemorySink
        ensures { result ≡ record { bytes = []; failing = []; puts = 0; faults = 0 } }
    {
        MemorySink {
            bytes: Vec::new(alloc),
            failing: Vec::new(alloc),
            puts: 0,
            faults: 0,
        }
    }

    /// Names a put that is to fail, by its number, once it has kept at most so many bytes of its piece. Where
    /// a put is named twice, the newest naming counts.
    pub fn fail(&mut self, call: u32, kept: usize) -> Result<(), AllocError>
        ensures ok { OnOk result (self.new ≡ record self.old { failing = self.old.failing ++ record { call = call; kept = kept } ∷ [] }) }
        ensures err { OnErr result (self.new ≡ self.old) }
    {
        self.failing.push(Failing { call, kept })?;
        Ok(())
    }

    /// The bytes that were put so far.
    pub fn bytes(&self) -> &[u8]
        ensures { result.now ≡ self.now.bytes }
    {
        &self.bytes
    }
}

impl Sink for MemorySink {
    ghost told = { bytes_told };

    ghost faults = { λ s. s.faults };

    fn put(&mut self, piece: &[u8]) -> Result<(), PutFault>
        ensures bytes { Puts piece.now (bytes_told self.old) (bytes_told self.new) result }
        ensures nothing { piece.now ≡ [] → (result ≡ Ok tt) × (self.new ≡ self.old) }
        ensures cause { CountsPut self.old.faults self.new.faults result }
        ensures none_fell { self.old.faults ≤ self.new.faults }
        ensures as_named { piece.now ≢ [] → PutsAsNamed self.old piece.now result self.new }
    {
        if piece.is_empty() {
            return Ok(());
        }
        self.puts = self.puts.saturating_add(1);
        let Some(kept) = kept_at(&self.failing, self.puts) else {
            return self
                .bytes
                .extend_from_slice(piece)
                .map_err(PutFault::Memory);
        };
        let front = &piece[..kept.min(piece.len())];
        self.bytes
            .extend_from_slice(front)
            .map_err(PutFault::Memory)?;
        self.faults = self.faults.saturating_add(1);
        Err(PutFault::Failed)
    }
}
