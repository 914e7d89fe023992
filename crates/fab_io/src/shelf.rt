//! Contents by name: what a fetch answers, and what it does to the counts of faults.
ghost use Rattle.std.specs.Prelude.{◌≡◌, ◌≤◌, ℕ, List, Option};
ghost use Rattle.fab_io.specs.Shelf.{Fetches, CountsFetch, NoneFell};

use std::alloc::AllocError;
use thiserror::Error;

/// Why a fetch gave nothing. The buffer is empty then.
#[derive(Debug, Drop, Error)]
pub enum FetchFault {
    /// The outside failed; the count of the name tells it.
    #[error("it cannot be read")]
    Failed,
    /// No memory was left for the content.
    #[error("out of memory")]
    Memory(AllocError),
}

/// Contents by name, as files.
pub trait Shelf {
    /// The content of each name, given by its bytes, where the shelf tells it.
    ghost told: { Self → List ℕ → Option (List ℕ) };

    /// A count for each name, which never falls, and rises where a fetch of the name fails.
    ghost faults: { Self → List ℕ → ℕ };

    /// Puts the whole content of a name into a buffer, in place of what the buffer holds, and answers true.
    /// It answers false where the content has more bytes than the limit, which is at most 512 MiB. Then, and
    /// after a fault, the buffer is empty. Time and room are those of the content, or of the limit where that
    /// is less.
    fn fetch(&mut self, name: &str, limit: usize, into: &mut Vec<u8>) -> Result<bool, FetchFault>
        requires { limit ≤ 536870912 }
        ensures content { Fetches (told self.old name.now) limit result into.new.items }
        ensures told_stays { told self.new ≡ told self.old }
        ensures cause { CountsFetch name.now (faults self.old) (faults self.new) result }
        ensures none_fell { NoneFell (faults self.old) (faults self.new) };
}
