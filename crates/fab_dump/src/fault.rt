//! Why a plan text is refused.
//!
//! A text has one fault at most: that of its first faulty line, and where no line is faulty, that its end is
//! missing. Lines are numbered from 1, those that are passed over included.
use std::alloc::AllocError;
use thiserror::Error;

/// Why a plan text is refused: the fault of its first faulty line, or that its end is missing.
#[derive(Debug, Drop, Error)]
pub enum PlanFault {
    /// The first line begins with `fabroute plan ` and names no version that is read for the fabric: none of 1
    /// to 3, or 1 for more than 512 switches or 4,096 LIDs. The line is 1.
    #[error("line {line}: unknown version")]
    Version { line: u32 },
    /// The second line of a plan names no lane count; a table head or a table row has another form, or from
    /// version 2 on a switch or LIDs that aren't the fabric's; a row, a head or a pair row stands where none
    /// may, as one of lanes in a plan without lanes; or a line is of no known kind.
    #[error("line {line}: bad row")]
    BadRow { line: u32 },
    /// A head opens a table block, a levels block or a lane map of a switch for the second time, or the
    /// certificate.
    #[error("line {line}: block given twice")]
    TwiceBlock { line: u32 },
    /// A row speaks a second time of a LID in its switch's block, of a pair of ports, or of a channel and lane.
    /// From version 2 on the first LID of a row stands for all of it.
    #[error("line {line}: row given twice")]
    TwiceRow { line: u32 },
    /// The head of a levels block names no switch with a terminal, or a row of it has another form or LIDs that
    /// aren't in use.
    #[error("line {line}: bad level row")]
    BadLevelRow { line: u32 },
    /// The head of a lane map names no switch of the fabric, its row isn't sixteen lanes, or a pair row has
    /// another form or ports that the switch hasn't.
    #[error("line {line}: bad lane row")]
    BadLaneRow { line: u32 },
    /// A row of the certificate has another form: no channel of the fabric, a lane above 14, or a number that
    /// is 0 or above 4,294,967,295.
    #[error("line {line}: bad number row")]
    BadNumber { line: u32 },
    /// The map of a pair of ports beyond 65,536.
    #[error("line {line}: too many pair maps")]
    TooManyPairs { line: u32 },
    /// No line is faulty, and a plan has no line `end plan`.
    #[error("no end")]
    NoEnd,
    /// Memory was refused.
    #[error("out of memory")]
    Memory(AllocError),
}
