//! Why a list of groups is refused.
use std::alloc::AllocError;
use thiserror::Error;

/// Why a list of groups is refused: its first faulty line, counted from 1. Of a line's faults the first of these counts.
#[derive(Debug, Drop, Error)]
pub enum GroupFault {
    /// The line isn't empty, doesn't begin with `#` and names no group.
    #[error("line {line}: bad line")]
    BadLine { line: u32 },
    /// An earlier line has the group's number.
    #[error("line {line}: group given twice")]
    TwiceGroup { line: u32 },
    /// One of the LIDs isn't a terminal's.
    #[error("line {line}: unknown member")]
    UnknownMember { line: u32 },
    /// Memory was refused.
    #[error("out of memory")]
    Memory(AllocError),
}

impl From<AllocError> for GroupFault {
    ghost use Rattle.std.specs.Prelude.{◌≡◌};
    ghost use Rattle.fab_mcast.specs.declared.fault.GroupFault.TheVariants.{Memory};

    ghost from_gives = { λ refused fault. fault ≡ Memory refused };

    fn from(refused: AllocError) -> GroupFault {
        GroupFault::Memory(refused)
    }
}
