//! A node's description, as the NodeDescription of InfiniBand's subnet management: at most 64 bytes, here none of
//! them a line feed, since a text gives it on one line. It is kept in place, so none of its calls takes memory.
ghost use Rattle.std.specs.Prelude.{◌≡◌, ◌≤◌, length};
ghost use Rattle.fab_model.specs.Description.{IsDescription};

use std::marker::Model;

/// A node's description: at most 64 bytes, none of them a line feed. It is seen as the list of its bytes.
#[derive(Drop)]
pub struct Desc {
    bytes: [u8; 64],
    count: usize,
}

impl Model for Desc {
    ghost use Rattle.std.specs.Prelude.{ℕ, List, take, ◌≤◌};
    ghost use Rattle.fab_model.specs.Description.{HasNoLineFeed};

    ghost Value = { List ℕ };

    ghost view = { λ d. take d.count d.bytes };

    ghost invariant = { λ d. (d.count ≤ 64) × HasNoLineFeed (take d.count d.bytes) };
}

impl Desc {
    /// The description of these bytes. Time in their number.
    pub fn new(bytes: &[u8]) -> Desc
        requires { IsDescription bytes.now }
        ensures { result ≡ bytes.now }
    {
        let mut all = [0; 64];
        let count = bytes.len();
        all[..count].copy_from_slice(bytes);
        Desc { bytes: all, count }
    }

    /// Its bytes. Constant time.
    pub fn bytes(&self) -> &[u8]
        ensures bytes { result.now ≡ self.now }
        ensures limits { IsDescription self.now }
    {
        &self.bytes[..self.count]
    }

    /// The same description.
    pub(crate) fn copied(&self) -> Desc
        ensures { result ≡ self.now }
    {
        Desc::new(self.bytes())
    }
}
