//! Why a list of failed cables is refused, and why a plan isn't repaired.
use fab_model::WithoutFault;
use std::alloc::AllocError;
use thiserror::Error;

/// Why a list of failed cables is refused. Lines are counted from 1.
#[derive(Debug, Drop, Error)]
pub enum FailedFault {
    /// The first line of another form.
    #[error("line {line}: bad line")]
    BadLine { line: u32 },
    /// Memory for the cables was refused.
    #[error("out of memory")]
    Memory(AllocError),
}

/// Why a plan isn't repaired.
#[derive(Debug, Drop, Error)]
pub enum RepairFault {
    /// The first cable of the list that isn't in the fabric, by its place from 0.
    #[error("cable {index}: not in the fabric")]
    UnknownCable { index: u32 },
    /// Memory for the fabric or the plan was refused.
    #[error("out of memory")]
    Memory(AllocError),
}

impl From<AllocError> for RepairFault {
    ghost use Rattle.std.specs.Prelude.{◌≡◌};
    ghost use Rattle.fab_repair.specs.declared.fault.RepairFault.TheVariants.{Memory};

    ghost from_gives = { λ refused fault. fault ≡ Memory refused };

    fn from(refused: AllocError) -> RepairFault {
        RepairFault::Memory(refused)
    }
}

impl From<WithoutFault> for RepairFault {
    ghost use Rattle.std.specs.Prelude.{◌≡◌};
    ghost use Rattle.fab_repair.specs.Faults.{repair_fault};

    ghost from_gives = { λ without fault. fault ≡ repair_fault without };

    fn from(without: WithoutFault) -> RepairFault {
        match without {
            WithoutFault::UnknownCable { index } => RepairFault::UnknownCable { index },
            WithoutFault::Memory(refused) => RepairFault::Memory(refused),
        }
    }
}
