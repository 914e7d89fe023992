//! What layered shortest path routing answers.
use fab_depgraph::Layers;
use fab_model::SwitchId;
use fab_tables::Plan;
use std::alloc::AllocError;
use thiserror::Error;

/// A plan, and lane by lane the dependencies of the pairs of switches whose layer the lane is.
#[derive(Drop)]
pub struct Layered {
    pub plan: Plan,
    pub used: Layers,
}

/// Why there is no layered plan.
#[derive(Debug, Drop, Error)]
pub enum LashFault {
    /// The first pair of switches that fits none of the lanes.
    #[error("another lane is needed for switches {} and {}", low.0, high.0)]
    NeedsLane { low: SwitchId, high: SwitchId },
    #[error("out of memory")]
    Memory(AllocError),
}

impl From<AllocError> for LashFault {
    ghost use Rattle.std.specs.Prelude.{◌≡◌};
    ghost use Rattle.fab_lash.specs.declared.layered.LashFault.TheVariants.{Memory};

    ghost from_gives = { λ refused fault. fault ≡ Memory refused };

    fn from(refused: AllocError) -> LashFault {
        LashFault::Memory(refused)
    }
}
