//! Where the reader of a plan text stands: the form of the text, and the block that is open.
ghost use Rattle.std.specs.Prelude.{◌≡◌};
ghost use Rattle.fab_dump.specs.Lines.{has_pairs, is_dump, says_one_lid};

use fab_model::SwitchId;

/// Which form a text of a plan has.
#[derive(Clone, Copy)]
pub(crate) enum Version {
    /// What `ibroute` prints: tables alone.
    Dump,
    One,
    Two,
    Three,
}

impl Version {
    pub(crate) fn is_dump(self) -> bool
        ensures { result ≡ is_dump self }
    {
        matches!(self, Version::Dump)
    }

    /// Whether a row says one LID, and not up to 64.
    pub(crate) fn says_one_lid(self) -> bool
        ensures { result ≡ says_one_lid self }
    {
        matches!(self, Version::Dump | Version::One)
    }

    /// Whether maps of pairs of ports may follow the row of a lane map.
    pub(crate) fn has_pairs(self) -> bool
        ensures { result ≡ has_pairs self }
    {
        matches!(self, Version::Three)
    }
}

/// The block of a text that is open.
#[derive(Clone, Copy)]
pub(crate) enum Block {
    Nothing,
    /// A table block; None where its switch isn't in the fabric.
    Table(Option<SwitchId>),
    Levels(SwitchId),
    /// A lane map whose row is still to come.
    MapRow(SwitchId),
    /// A lane map after its row, where maps of pairs of ports may follow.
    Pairs(SwitchId),
    Numbers,
}

/// Whether the text goes on behind a line.
#[derive(Clone, Copy)]
pub(crate) enum Step {
    Goes,
    Ends,
}
