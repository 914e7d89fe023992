//! Places for bytes: what a put appends, and what it does to the count of faults.
ghost use Rattle.std.specs.Prelude.{◌≡◌, ◌≤◌, [], ℕ, List, Option, Ok};
ghost use Rattle.fab_io.specs.Sink.{Puts, CountsPut};

use std::alloc::AllocError;
use thiserror::Error;

/// Why a put didn't append its whole piece.
#[derive(Debug, Drop, Error)]
pub enum PutFault {
    /// The outside failed, after a prefix of the piece; the count tells it.
    #[error("it cannot be written")]
    Failed,
    /// No memory was left, and nothing was appended.
    #[error("out of memory")]
    Memory(AllocError),
}

/// What takes bytes, a piece at a time.
pub trait Sink {
    /// The bytes put so far, where the sink tells them.
    ghost told: { Self → Option (List ℕ) };

    /// A count that never falls, and rises where a put fails.
    ghost faults: { Self → ℕ };

    /// Appends a piece. An empty one changes nothing. Time: the bytes of the piece.
    fn put(&mut self, piece: &[u8]) -> Result<(), PutFault>
        ensures bytes { Puts piece.now (told self.old) (told self.new) result }
        ensures nothing { piece.now ≡ [] → (result ≡ Ok tt) × (self.new ≡ self.old) }
        ensures cause { CountsPut (faults self.old) (faults self.new) result }
        ensures none_fell { faults self.old ≤ faults self.new };
}
