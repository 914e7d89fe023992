//! The engines: what each of them lays for a fabric. The time and memory are those of the engine's crate.
ghost use Rattle.std.specs.Prelude.{◌≡◌, None};
ghost use Rattle.fab_top.specs.declared.engines.EngineAnswer.TheVariants as engine_answer;
ghost use Rattle.fab_top.specs.Engines.{HasLaneCount};
ghost use Rattle.fab_top.specs.Outcomes.{LaysRightly};

use crate::command::Engine;
use crate::laned::{guarded, layered, rings_broken};
use crate::outcome::Stop;
use crate::up_down::up_down;
use fab_balance::{dor, minhop};
use fab_hops::Hops;
use fab_model::Fabric;
use fab_sssp::lay as sssp;
use fab_tables::{Plan, Tables};
use std::alloc::Global;

/// What an engine makes of a fabric.
#[derive(Drop)]
pub(crate) enum EngineAnswer {
    /// Its plan.
    Plan(Plan),
    /// Its refusal: the line for the error output.
    No(Vec<u8>),
}

/// A plan without lanes.
fn without_lanes(tables: Tables) -> EngineAnswer
    ensures { result ≡ engine_answer.Plan (record { tables = tables; lanes = None }) }
{
    EngineAnswer::Plan(Plan {
        tables,
        lanes: None,
    })
}

/// What an engine makes of a fabric.
pub(crate) fn laid(alloc: Global, fabric: &Fabric, engine: Engine) -> Result<EngineAnswer, Stop>
    requires { HasLaneCount engine }
    ensures { LaysRightly fabric.now engine result }
{
    match engine {
        Engine::MinHop => {
            let hops = Hops::of(alloc, fabric)?;
            Ok(without_lanes(minhop(alloc, fabric, &hops)?))
        }
        Engine::Dor => {
            let hops = Hops::of(alloc, fabric)?;
            Ok(without_lanes(dor(alloc, fabric, &hops)?))
        }
        Engine::Sssp => Ok(without_lanes(sssp(alloc, fabric)?)),
        Engine::Updn(roots) => up_down(alloc, fabric, roots.guids()),
        Engine::Lash(lanes) => layered(alloc, fabric, lanes),
        Engine::Dfsssp(lanes) => rings_broken(alloc, fabric, lanes),
        Engine::Nue(lanes) => guarded(alloc, fabric, lanes),
    }
}
