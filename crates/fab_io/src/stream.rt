//! A sink over a writer, as standard output.
ghost use Rattle.std.specs.Prelude.{◌≡◌, ◌≤◌, [], ℕ, None, Ok, OnOk, take};
ghost use Rattle.std.specs.Io.KnownBytes.{Appends};
ghost use Rattle.fab_io.specs.Sink.{Puts, CountsPut};

use crate::{PutFault, Sink};
use std::io;
use std::io::{ErrorKind, Write};

/// A sink over any writer of std. As a sink it tells nothing of what was put. Its count of faults rises at
/// each error. Each put is written whole and flushed before it answers, and takes no memory.
#[derive(Drop)]
pub struct StreamSink<W: Write + Drop> {
    writer: W,
    faults: u64,
}

/// Writes a whole piece, and has the writer pass it on. A write that takes nothing is an error.
fn write_whole<W: Write>(writer: &mut W, piece: &[u8]) -> io::Result<()>
    ensures whole { OnOk result (Appends (W.contents writer.old) (W.contents writer.new) piece.now) }
    ensures prefix { (count : ℕ) × Appends (W.contents writer.old) (W.contents writer.new) (take count piece.now) }
{
    let mut rest = piece;
    while !rest.is_empty() {
        let count = writer.write(rest)?;
        if count == 0 {
            return Err(io::Error::from(ErrorKind::WriteZero));
        }
        let (_, after) = rest.split_at(count);
        rest = after;
    }
    writer.flush()
}

impl<W: Write + Drop> StreamSink<W> {
    /// A sink over a writer.
    pub fn new(writer: W) -> StreamSink<W>
        ensures { result ≡ record { writer = writer; faults = 0 } }
    {
        StreamSink { writer, faults: 0 }
    }
}

impl<W: Write + Drop> Sink for StreamSink<W> {
    ghost told = { λ _. None };

    ghost faults = { λ s. s.faults };

    fn put(&mut self, piece: &[u8]) -> Result<(), PutFault>
        ensures bytes { Puts piece.now None None result }
        ensures nothing { piece.now ≡ [] → (result ≡ Ok tt) × (self.new ≡ self.old) }
        ensures cause { CountsPut self.old.faults self.new.faults result }
        ensures none_fell { self.old.faults ≤ self.new.faults }
        ensures whole { OnOk result (Appends (W.contents self.old.writer) (W.contents self.new.writer) piece.now) }
        ensures prefix { (count : ℕ) × Appends (W.contents self.old.writer) (W.contents self.new.writer) (take count piece.now) }
    {
        if piece.is_empty() {
            return Ok(());
        }
        if write_whole(&mut self.writer, piece).is_err() {
            self.faults = self.faults.saturating_add(1);
            return Err(PutFault::Failed);
        }
        Ok(())
    }
}
