//! Placing the dependencies of a pair: in the first lane in which they close no walk with those that it has.
//!
//! Time: for each lane, that of trying them. Memory: 40 bytes for each different dependency of a lane, and for the
//! pair's own in each lane in which they are tried.
//!
//! Source: Skeie, Lysne and Theiss, "Layered Shortest Path (LASH) Routing in Irregular System Area Networks", 2002;
//! OpenSM's document on routing, engine `lash`.
ghost use Rattle.std.specs.Prelude.{◌≡◌, ◌<◌, length, IfOk, MatchOption};
ghost use Rattle.fab_lash.specs.Placing.{FitInto, HaveRoom, IsTried, IsPlaced, IsNowhere};

use crate::trying::takes;
use fab_depgraph::{Dep, Layers, Steps};
use std::alloc::AllocError;
use std::sync::ledger::Ledger;

/// Adds the dependencies, where they lack, to the first lane that takes all of them, and answers it; None where no
/// lane does. The error is want of memory.
pub(crate) fn place<L: Ledger>(
    used: &mut Layers,
    dependencies: &[Dep],
    steps: &mut Steps<L>,
) -> Result<Option<u8>, AllocError>
    requires within { FitInto used.old dependencies.now }
    requires room { HaveRoom used.old dependencies.now }
    ensures { IfOk result (λ placed. MatchOption placed (IsNowhere used.old dependencies.now) (IsPlaced used.old used.new dependencies.now)) }
{
    for lane in 0..used.lanes() {
        if try_lane(used, lane, dependencies, steps)? {
            return Ok(Some(lane));
        }
    }
    Ok(None)
}

/// Adds the dependencies that a lane lacks, or none of them where a walk would be closed. It answers whether all of
/// them are there now.
fn try_lane<L: Ledger>(
    used: &mut Layers,
    lane: u8,
    dependencies: &[Dep],
    steps: &mut Steps<L>,
) -> Result<bool, AllocError>
    requires lane { lane < length used.old }
    requires within { FitInto used.old dependencies.now }
    requires room { HaveRoom used.old dependencies.now }
    ensures { IfOk result (IsTried lane used.old used.new dependencies.now) }
{
    let arena = used.lane_mut(lane);
    arena.reserve(dependencies.len() as u32)?;
    Ok(takes(arena, dependencies, steps))
}
