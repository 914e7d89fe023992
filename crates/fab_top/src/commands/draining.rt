//! The command that drains: a fabric is filled with packets of a plan, and how they drain is told. The time and memory
//! are those of reading the files, of filling and of draining.
ghost use Rattle.std.specs.Prelude.{◌<◌, length};
ghost use Rattle.fab_model.specs.WellFormed.{IsFabric};
ghost use Rattle.fab_tables.specs.Fit.{PlanFits};
ghost use Rattle.fab_certify.specs.Certificate.{IsSoundPlan};
ghost use Rattle.fab_drain.specs.Fills.{IsFilling};
ghost use Rattle.fab_top.specs.Answers.{IsDrainAnswer};
ghost use Rattle.fab_top.specs.Headline.{DrainsTruly};
ghost use Rattle.fab_top.specs.Outcomes.{Obeys, FindsRightly};
ghost use Rattle.fab_top.specs.Words.{texts};
ghost use Rattle.fab_top.specs.declared.command.Command.TheVariants as asked;

use super::{done, lane_count, no};
use crate::drain_texts::{drained_text, waiting_text};
use crate::files::{take_fabric, take_plan};
use crate::outcome::{Outcome, Stop};
use crate::texts::verdict_text;
use fab_drain::{Drained, Filled, State, fill};
use fab_io::Shelf;
use fab_model::Fabric;
use fab_tables::Plan;
use std::alloc::Global;

/// How the load that fills a fabric drains, as an outcome.
fn drained_from(
    alloc: Global,
    fabric: &Fabric,
    plan: &Plan,
    load: &mut State,
) -> Result<Outcome, Stop>
    requires fabric { IsFabric fabric.now }
    requires fits { PlanFits fabric.now plan.now }
    requires admitted { IsSoundPlan fabric.now plan.now }
    requires filling { IsFilling fabric.now plan.now load.old }
    ensures { FindsRightly (IsDrainAnswer fabric.now plan.now) (DrainsTruly fabric.now plan.now) result }
{
    let packets = load.packets();
    match load.drain(alloc, fabric, plan)? {
        Drained::Empty { moves } => {
            let text = drained_text(alloc, packets, moves)?;
            Ok(done(alloc, text))
        }
        Drained::Waiting { moves, ring } => {
            let count = lane_count(plan);
            let text = waiting_text(alloc, fabric, count, load.packets(), moves, ring.nodes())?;
            Ok(no(alloc, text))
        }
    }
}

/// How the load of a plan that fits drains, as an outcome.
fn drained(alloc: Global, fabric: &Fabric, plan: &Plan) -> Result<Outcome, Stop>
    requires fabric { IsFabric fabric.now }
    requires fits { PlanFits fabric.now plan.now }
    ensures { FindsRightly (IsDrainAnswer fabric.now plan.now) (DrainsTruly fabric.now plan.now) result }
{
    match fill(alloc, fabric, plan)? {
        Filled::Full(mut load) => drained_from(alloc, fabric, plan, &mut load),
        Filled::Refused(fault) => {
            let text = verdict_text(alloc, fabric, fault)?;
            Ok(no(alloc, text))
        }
    }
}

/// How packets drain that fill a fabric.
pub(crate) fn drain<F: Shelf>(
    alloc: Global,
    words: &[String],
    shelf: &mut F,
    fabric: usize,
    plan: usize,
) -> Result<Outcome, Stop>
    requires fabric { fabric < length words.now }
    requires plan { plan < length words.now }
    ensures { Obeys (asked.Drain fabric plan) (texts words.now) (F.told shelf.old) (F.faults shelf.old) (F.faults shelf.new) result }
{
    let fabric = take_fabric(alloc, words, shelf, fabric)?;
    let plan = take_plan(alloc, words, shelf, &fabric, plan)?;
    drained(alloc, &fabric, &plan)
}
