//! The command that sweeps: a plan is repaired after each single failure, and what each costs is told. The time and memory
//! are those of reading the files and of the sweep.
ghost use Rattle.std.specs.Prelude.{◌<◌, length};
ghost use Rattle.fab_model.specs.WellFormed.{IsFabric};
ghost use Rattle.fab_tables.specs.Fit.{PlanFits};
ghost use Rattle.fab_top.specs.Answers.{IsSweepAnswer};
ghost use Rattle.fab_top.specs.Engines.{IsLaneCount};
ghost use Rattle.fab_top.specs.Headline.{SweepsTruly};
ghost use Rattle.fab_top.specs.Outcomes.{Obeys, FindsRightly};
ghost use Rattle.fab_top.specs.Words.{texts};
ghost use Rattle.fab_top.specs.declared.command.Command.TheVariants as asked;

use super::done;
use crate::files::{take_fabric, take_plan};
use crate::outcome::{Outcome, Stop};
use crate::sweep_texts::sweep_text;
use fab_io::Shelf;
use fab_model::Fabric;
use fab_sweep::{Failing, sweep as sweep_of};
use fab_tables::Plan;
use std::alloc::Global;

/// What each single failure costs a plan that fits, as an outcome.
fn swept(
    alloc: Global,
    fabric: &Fabric,
    plan: &Plan,
    lanes: u8,
    what: Failing,
) -> Result<Outcome, Stop>
    requires fits { PlanFits fabric.now plan.now }
    requires lanes { IsLaneCount lanes }
    ensures { FindsRightly (IsSweepAnswer what lanes fabric.now plan.now) (SweepsTruly what lanes fabric.now plan.now) result }
{
    let swept = sweep_of(alloc, fabric, plan, lanes, what)?;
    let text = sweep_text(alloc, fabric, swept.rows())?;
    Ok(done(alloc, text))
}

/// What each single failure costs a plan.
pub(crate) fn sweep<F: Shelf>(
    alloc: Global,
    words: &[String],
    shelf: &mut F,
    what: Failing,
    fabric: usize,
    plan: usize,
    lanes: u8,
) -> Result<Outcome, Stop>
    requires fabric { fabric < length words.now }
    requires plan { plan < length words.now }
    requires lanes { IsLaneCount lanes }
    ensures { Obeys (asked.Sweep what fabric plan lanes) (texts words.now) (F.told shelf.old) (F.faults shelf.old) (F.faults shelf.new) result }
{
    let fabric = take_fabric(alloc, words, shelf, fabric)?;
    let plan = take_plan(alloc, words, shelf, &fabric, plan)?;
    swept(alloc, &fabric, &plan, lanes, what)
}
