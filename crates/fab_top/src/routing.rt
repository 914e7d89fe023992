//! The commands that route: an engine's plan for a fabric, and the counts and the verdict of its plan for the fabric of a
//! recipe. Each goes by the calls that the other commands go by, and takes their time and memory.
ghost use Rattle.std.specs.Prelude.{◌<◌, length, IfOk, IsTrue};
ghost use Rattle.fab_model.specs.WellFormed.{IsFabric};
ghost use Rattle.fab_report.specs.Recipes.{fits, generated};
ghost use Rattle.fab_tables.specs.Fit.{PlanFits};
ghost use Rattle.fab_top.specs.Engines.{HasLaneCount};
ghost use Rattle.fab_top.specs.Words.{texts};
ghost use Rattle.fab_top.specs.Outcomes.{Obeys, FindsRightly, CanBePut, answer_of};
ghost use Rattle.fab_top.specs.Answers.{IsRouteAnswer, IsDemoAnswer, IsSummary};
ghost use Rattle.fab_top.specs.Headline.{RoutesTruly, ShowsOff};
ghost use Rattle.fab_top.specs.declared.command.Command.TheVariants as asked;

use crate::command::Engine;
use crate::commands::{done, no, verdict_on};
use crate::engines::{EngineAnswer, laid};
use crate::files::take_fabric;
use crate::outcome::{Outcome, Stop};
use crate::report_texts::summary_text;
use crate::texts::verdict_text;
use fab_io::Shelf;
use fab_model::Fabric;
use fab_report::{Recipe, generate as fabric_of, summary as summary_of};
use fab_tables::Plan;
use std::alloc::{AllocError, Global};

/// An engine's plan for a fabric, to be written, or its refusal.
fn routed(alloc: Global, fabric: Fabric, engine: Engine) -> Result<Outcome, Stop>
    requires fabric { IsFabric fabric }
    requires lanes { HasLaneCount engine }
    ensures { FindsRightly (IsRouteAnswer engine fabric) (RoutesTruly engine fabric) result }
{
    match laid(alloc, &fabric, engine)? {
        EngineAnswer::Plan(plan) => Ok(Outcome::Planned {
            fabric,
            plan,
            err: Vec::new(alloc),
        }),
        EngineAnswer::No(reason) => Ok(no(alloc, reason)),
    }
}

/// An engine's plan for a fabric.
pub(crate) fn route<F: Shelf>(
    alloc: Global,
    words: &[String],
    shelf: &mut F,
    fabric: usize,
    engine: Engine,
) -> Result<Outcome, Stop>
    requires fabric { fabric < length words.now }
    requires lanes { HasLaneCount engine }
    ensures { Obeys (asked.Route fabric engine) (texts words.now) (F.told shelf.old) (F.faults shelf.old) (F.faults shelf.new) result }
{
    let fabric = take_fabric(alloc, words, shelf, fabric)?;
    routed(alloc, fabric, engine)
}

/// The counts of a plan that fits, and its verdict.
fn counted(alloc: Global, fabric: &Fabric, plan: &Plan) -> Result<Outcome, AllocError>
    requires fabric { IsFabric fabric.now }
    requires fits { PlanFits fabric.now plan.now }
    ensures summary { IfOk result (λ outcome. IsSummary fabric.now plan.now (answer_of outcome)) }
    ensures can_be_put { IfOk result CanBePut }
{
    let verdict = verdict_on(alloc, fabric, plan)?;
    let counts = summary_of(alloc, fabric, plan)?;
    let mut text = summary_text(alloc, &counts)?;
    let line = verdict_text(alloc, fabric, verdict)?;
    text.extend_from_slice(&line)?;
    Ok(done(alloc, text))
}

/// The counts and the verdict of an engine's plan for a fabric, or its refusal.
fn shown_off(alloc: Global, fabric: &Fabric, engine: Engine) -> Result<Outcome, Stop>
    requires fabric { IsFabric fabric.now }
    requires lanes { HasLaneCount engine }
    ensures { FindsRightly (IsDemoAnswer engine fabric.now) (ShowsOff engine fabric.now) result }
{
    match laid(alloc, fabric, engine)? {
        EngineAnswer::Plan(plan) => {
            let outcome = counted(alloc, fabric, &plan)?;
            Ok(outcome)
        }
        EngineAnswer::No(reason) => Ok(no(alloc, reason)),
    }
}

/// The counts and the verdict of an engine's plan for the fabric of a recipe that fits.
pub(crate) fn demo(alloc: Global, recipe: Recipe, engine: Engine) -> Result<Outcome, Stop>
    requires fits { IsTrue (fits recipe) }
    requires lanes { HasLaneCount engine }
    ensures { FindsRightly (IsDemoAnswer engine (generated recipe)) (ShowsOff engine (generated recipe)) result }
{
    let fabric = fabric_of(alloc, &recipe)?;
    shown_off(alloc, &fabric, engine)
}
