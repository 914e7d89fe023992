//! Engines that lay a plan on a given number of lanes, or say that they need another, which Nue never does. The time and
//! memory are those of the engines, and of hop counts.
ghost use Rattle.fab_top.specs.Engines.{IsLaneCount};
ghost use Rattle.fab_top.specs.Outcomes.{LaysRightly};
ghost use Rattle.fab_top.specs.declared.command.Engine.TheVariants as engine;

use crate::engines::EngineAnswer;
use crate::outcome::Stop;
use crate::texts::{lane_for_pair_text, lane_for_ring_text};
use fab_dfsssp::{BreakFault, dfsssp};
use fab_hops::Hops;
use fab_lash::{LashFault, lash};
use fab_model::Fabric;
use fab_nue::nue;
use std::alloc::Global;

/// What layered shortest path routing makes of a fabric.
pub(crate) fn layered(alloc: Global, fabric: &Fabric, lanes: u8) -> Result<EngineAnswer, Stop>
    requires { IsLaneCount lanes }
    ensures { LaysRightly fabric.now (engine.Lash lanes) result }
{
    let hops = Hops::of(alloc, fabric)?;
    match lash(alloc, fabric, &hops, lanes) {
        Ok(layered) => Ok(EngineAnswer::Plan(layered.plan)),
        Err(LashFault::NeedsLane { low, high }) => Ok(EngineAnswer::No(lane_for_pair_text(
            alloc, fabric, low, high,
        )?)),
        Err(LashFault::Memory(refused)) => Err(Stop::Memory(refused)),
    }
}

/// What routing along walks of least weight makes of a fabric, with its rings broken.
pub(crate) fn rings_broken(alloc: Global, fabric: &Fabric, lanes: u8) -> Result<EngineAnswer, Stop>
    requires { IsLaneCount lanes }
    ensures { LaysRightly fabric.now (engine.Dfsssp lanes) result }
{
    match dfsssp(alloc, fabric, lanes) {
        Ok(plan) => Ok(EngineAnswer::Plan(plan)),
        Err(BreakFault::NeedsLane { ring }) => Ok(EngineAnswer::No(lane_for_ring_text(
            alloc,
            fabric,
            lanes - 1,
            ring.nodes(),
        )?)),
        Err(BreakFault::Memory(refused)) => Err(Stop::Memory(refused)),
    }
}

/// What Nue makes of a fabric: always a plan.
pub(crate) fn guarded(alloc: Global, fabric: &Fabric, lanes: u8) -> Result<EngineAnswer, Stop>
    requires { IsLaneCount lanes }
    ensures { LaysRightly fabric.now (engine.Nue lanes) result }
{
    let hops = Hops::of(alloc, fabric)?;
    let laid = nue(alloc, fabric, &hops, lanes, None)?;
    Ok(EngineAnswer::Plan(laid.plan))
}
