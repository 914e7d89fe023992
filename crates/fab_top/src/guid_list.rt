//! The GUIDs that words name, kept in the memory of a list of them.
ghost use Rattle.std.specs.Prelude.{◌≡◌};

use std::marker::Model;

/// GUIDs in the order in which they were named; one that was named twice stands there twice. They are seen as the list
/// of them.
#[derive(Drop)]
pub struct GuidList {
    named: Vec<u64>,
}

impl Model for GuidList {
    ghost use Rattle.std.specs.Prelude.{List, ℕ};

    ghost Value = { List ℕ };

    ghost view = { λ list. list.named.items };
}

impl GuidList {
    pub(crate) fn new(named: Vec<u64>) -> GuidList
        ensures { result ≡ named.items }
    {
        GuidList { named }
    }

    /// The GUIDs, in the order in which they were named.
    pub fn guids(&self) -> &[u64]
        ensures { result.now ≡ self.now }
    {
        self.named.as_slice()
    }
}
