//! The command that writes a part of a plan as a subnet manager loads it. The time and memory are those of reading the
//! files, of checking the plan and of writing the part, whose text never stands in memory as a whole.
ghost use Rattle.std.specs.Prelude.{◌<◌, length, Err};
ghost use Rattle.fab_model.specs.WellFormed.{IsFabric};
ghost use Rattle.fab_tables.specs.Fit.{PlanFits};
ghost use Rattle.fab_export.specs.Unfits.{FindsUnfit};
ghost use Rattle.fab_top.specs.Answers.{IsExportAnswer};
ghost use Rattle.fab_top.specs.Headline.{ExportsTruly};
ghost use Rattle.fab_top.specs.Outcomes.{Obeys, FindsRightly};
ghost use Rattle.fab_top.specs.Words.{texts};
ghost use Rattle.fab_top.specs.declared.command.Command.TheVariants as asked;

use super::no;
use crate::export_texts::unfit_text;
use crate::files::{take_fabric, take_plan};
use crate::outcome::{Outcome, Stop};
use fab_export::{Part, Unfit, check_fit};
use fab_io::Shelf;
use fab_model::Fabric;
use fab_tables::Plan;
use std::alloc::Global;

/// The first reason against a part, as an outcome.
fn unfit(
    alloc: Global,
    fabric: &Fabric,
    plan: &Plan,
    part: Part,
    reason: Unfit,
) -> Result<Outcome, Stop>
    requires fabric { IsFabric fabric.now }
    requires fits { PlanFits fabric.now plan.now }
    requires first { FindsUnfit fabric.now plan.now part (Err reason) }
    ensures { FindsRightly (IsExportAnswer part fabric.now plan.now) (ExportsTruly part fabric.now plan.now) result }
{
    if let Unfit::Memory(refused) = reason {
        return Err(Stop::Memory(refused));
    }
    let text = unfit_text(alloc, fabric, reason)?;
    Ok(no(alloc, text))
}

/// A part of a plan that fits, to be written, or the first reason against it.
fn exported(alloc: Global, fabric: Fabric, plan: Plan, part: Part) -> Result<Outcome, Stop>
    requires fabric { IsFabric fabric }
    requires fits { PlanFits fabric plan }
    ensures { FindsRightly (IsExportAnswer part fabric plan) (ExportsTruly part fabric plan) result }
{
    match check_fit(alloc, &fabric, &plan, part) {
        Ok(()) => Ok(Outcome::Exported { fabric, plan, part }),
        Err(reason) => unfit(alloc, &fabric, &plan, part, reason),
    }
}

/// A part of a plan as a subnet manager loads it.
pub(crate) fn export<F: Shelf>(
    alloc: Global,
    words: &[String],
    shelf: &mut F,
    part: Part,
    fabric: usize,
    plan: usize,
) -> Result<Outcome, Stop>
    requires fabric { fabric < length words.now }
    requires plan { plan < length words.now }
    ensures { Obeys (asked.Export part fabric plan) (texts words.now) (F.told shelf.old) (F.faults shelf.old) (F.faults shelf.new) result }
{
    let fabric = take_fabric(alloc, words, shelf, fabric)?;
    let plan = take_plan(alloc, words, shelf, &fabric, plan)?;
    exported(alloc, fabric, plan, part)
}
