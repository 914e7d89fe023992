//! The commands on a list of failed cables: the fabric that they leave, and a plan repaired for it. The list is read
//! before its cables are looked for, so a bad line is told before a cable that isn't in the fabric. The time and memory
//! are those of reading the files, taking the cables out, and writing the fabric or repairing and writing the plan.
ghost use Rattle.std.specs.Prelude.{◌<◌, ◌^◌, length, Some, IfOk};
ghost use Rattle.fab_model.specs.Topology.{HasNoOwnCable};
ghost use Rattle.fab_model.specs.WellFormed.{IsFabric};
ghost use Rattle.fab_tables.specs.Fit.{PlanFits};
ghost use Rattle.fab_nue.specs.NuePlan.{IsNuePlan};
ghost use Rattle.fab_top.specs.Answers.{IsFabricText, IsRepairAnswer};
ghost use Rattle.fab_top.specs.Engines.{IsLaneCount};
ghost use Rattle.fab_top.specs.Files.{without_failed};
ghost use Rattle.fab_top.specs.Headline.{WritesTruly, RepairsTruly};
ghost use Rattle.fab_top.specs.Outcomes.{Obeys, FindsRightly};
ghost use Rattle.fab_top.specs.Seen.{After};
ghost use Rattle.fab_top.specs.Taking.{IsTaken, viewed};
ghost use Rattle.fab_top.specs.Words.{texts};
ghost use Rattle.fab_top.specs.declared.command.Command.TheVariants as asked;

use super::fabric_text;
use crate::fault_texts::{unknown_cable_text, without_fault_text};
use crate::files::{take_fabric, take_failed, take_plan};
use crate::outcome::{Outcome, Stop};
use crate::report_texts::kept_text;
use fab_io::Shelf;
use fab_model::{Cable, Fabric};
use fab_repair::{RepairFault, Repaired, repair as repair_of};
use fab_tables::Plan;
use std::alloc::Global;

/// The fabric without the cables that a file lists, which are all in it.
fn without_failed(
    alloc: Global,
    name: &str,
    fabric: &Fabric,
    cables: &[Cable],
) -> Result<Fabric, Stop>
    requires { length cables.now < 2 ^ 32 }
    ensures taken { IsTaken result (without_failed name.now fabric.now cables.now) }
    ensures no_own_cable { HasNoOwnCable fabric.now → IfOk result HasNoOwnCable }
{
    match fabric.without(alloc, cables) {
        Ok(left) => Ok(left),
        Err(fault) => Err(Stop::Refused(without_fault_text(alloc, name, fault)?)),
    }
}

/// The text of the fabric without the cables that a file lists, as an outcome.
fn text_without(
    alloc: Global,
    name: &str,
    fabric: &Fabric,
    cables: &[Cable],
) -> Result<Outcome, Stop>
    requires few { length cables.now < 2 ^ 32 }
    requires no_own_cable { HasNoOwnCable fabric.now }
    ensures { FindsRightly (After (without_failed name.now fabric.now cables.now) IsFabricText) (After (without_failed name.now fabric.now cables.now) WritesTruly) result }
{
    let left = without_failed(alloc, name, fabric, cables)?;
    fabric_text(alloc, &left)
}

/// A fabric without the failed cables.
pub(crate) fn cut<F: Shelf>(
    alloc: Global,
    words: &[String],
    shelf: &mut F,
    fabric: usize,
    failed: usize,
) -> Result<Outcome, Stop>
    requires fabric { fabric < length words.now }
    requires failed { failed < length words.now }
    ensures { Obeys (asked.Cut fabric failed) (texts words.now) (F.told shelf.old) (F.faults shelf.old) (F.faults shelf.new) result }
{
    let fabric = take_fabric(alloc, words, shelf, fabric)?;
    let cables = take_failed(alloc, words, shelf, failed)?;
    text_without(alloc, words[failed].as_str(), &fabric, &cables)
}

/// The repair of a plan for the fabric without the cables that a file lists, which are all in it.
fn repaired(
    alloc: Global,
    name: &str,
    fabric: &Fabric,
    plan: &Plan,
    cables: &[Cable],
    lanes: u8,
) -> Result<Repaired, Stop>
    requires few { length cables.now < 2 ^ 32 }
    requires fits { PlanFits fabric.now plan.now }
    requires lanes { IsLaneCount lanes }
    ensures taken { IsTaken (viewed (λ made. made.fabric) result) (without_failed name.now fabric.now cables.now) }
    ensures plan { IfOk result (λ made. IsNuePlan made.fabric lanes (Some plan.now) made.kept made.plan) }
    ensures fits { IfOk result (λ made. PlanFits made.fabric made.plan) }
{
    match repair_of(alloc, fabric, plan, cables, lanes) {
        Ok(made) => Ok(made),
        Err(RepairFault::UnknownCable { index }) => {
            Err(Stop::Refused(unknown_cable_text(alloc, name, index)?))
        }
        Err(RepairFault::Memory(refused)) => Err(Stop::Memory(refused)),
    }
}

/// The repaired plan, and which LIDs it keeps, as an outcome.
fn repaired_plan(
    alloc: Global,
    name: &str,
    fabric: &Fabric,
    plan: &Plan,
    cables: &[Cable],
    lanes: u8,
) -> Result<Outcome, Stop>
    requires fabric { IsFabric fabric.now }
    requires few { length cables.now < 2 ^ 32 }
    requires fits { PlanFits fabric.now plan.now }
    requires lanes { IsLaneCount lanes }
    ensures { FindsRightly (After (without_failed name.now fabric.now cables.now) (IsRepairAnswer lanes plan.now)) (After (without_failed name.now fabric.now cables.now) (RepairsTruly lanes plan.now)) result }
{
    let made = repaired(alloc, name, fabric, plan, cables, lanes)?;
    let kept = kept_text(alloc, &made.fabric, &made.kept)?;
    Ok(Outcome::Planned {
        fabric: made.fabric,
        plan: made.plan,
        err: kept,
    })
}

/// A plan repaired after cables failed.
pub(crate) fn repair<F: Shelf>(
    alloc: Global,
    words: &[String],
    shelf: &mut F,
    fabric: usize,
    plan: usize,
    failed: usize,
    lanes: u8,
) -> Result<Outcome, Stop>
    requires fabric { fabric < length words.now }
    requires plan { plan < length words.now }
    requires failed { failed < length words.now }
    requires lanes { IsLaneCount lanes }
    ensures { Obeys (asked.Repair fabric plan failed lanes) (texts words.now) (F.told shelf.old) (F.faults shelf.old) (F.faults shelf.new) result }
{
    let fabric = take_fabric(alloc, words, shelf, fabric)?;
    let plan = take_plan(alloc, words, shelf, &fabric, plan)?;
    let cables = take_failed(alloc, words, shelf, failed)?;
    repaired_plan(
        alloc,
        words[failed].as_str(),
        &fabric,
        &plan,
        &cables,
        lanes,
    )
}
