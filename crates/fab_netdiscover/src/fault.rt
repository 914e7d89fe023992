//! What may be wrong with a text.
ghost use Rattle.std.specs.Prelude.{◌≡◌};
ghost use Rattle.fab_netdiscover.specs.Reading.{fault_on};

use std::alloc::AllocError;
use thiserror::Error;

/// Which part of a line has another form than a netdiscover text gives it.
#[derive(Clone, Copy, Debug, PartialEq, Eq)]
pub enum BadKind {
    /// The port count of a head.
    Ports,
    /// A node's name: a letter for its kind, and its GUID.
    Name,
    /// A switch's description.
    Description,
    /// The LID or the LMC, of a switch or of an adapter's port.
    Lid,
    /// A port number in brackets, or a port's GUID in parentheses.
    Port,
}

/// Why a text could not be read: what is wrong with its first faulty line. Lines are counted from 1.
#[derive(Debug, Drop, Error)]
pub enum ReadFault {
    /// A part of the line has another form; the first such part from left to right.
    #[error("line {line}: another form")]
    BadLine { line: u32, kind: BadKind },
    /// The line is the head of a router, or names one as the far end of a cable.
    #[error("line {line}: router")]
    Router { line: u32 },
    /// A port line stands before any head.
    #[error("line {line}: port line before any node")]
    Stray { line: u32 },
    /// Memory for the records was refused.
    #[error("out of memory")]
    Memory(AllocError),
}

/// What is wrong with a line.
#[derive(Clone, Copy, Debug, PartialEq, Eq)]
pub(crate) enum LineFault {
    Bad(BadKind),
    NamesRouter,
    IsStray,
}

impl LineFault {
    /// The fault of a text whose first faulty line is this one.
    pub(crate) fn on(self, line: u32) -> ReadFault
        ensures { result ≡ fault_on line self }
    {
        match self {
            LineFault::Bad(kind) => ReadFault::BadLine { line, kind },
            LineFault::NamesRouter => ReadFault::Router { line },
            LineFault::IsStray => ReadFault::Stray { line },
        }
    }
}
