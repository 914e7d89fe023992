//! The command on a change of tables: an old plan and a new one are read, and what is said of the change is told. The
//! time and memory are those of reading the files and of looking at the change.
ghost use Rattle.std.specs.Prelude.{◌≡◌, ◌<◌, length};
ghost use Rattle.fab_model.specs.WellFormed.{IsFabric};
ghost use Rattle.fab_tables.specs.Fit.{PlanFits};
ghost use Rattle.fab_transit.specs.MixedWalks.{bound};
ghost use Rattle.fab_top.specs.Answers.{IsTransitAnswer, change_of, told_change};
ghost use Rattle.fab_top.specs.Headline.{TransitsTruly};
ghost use Rattle.fab_top.specs.Outcomes.{Obeys, FindsRightly, CanBePut, answer_of};
ghost use Rattle.fab_top.specs.Words.{texts};
ghost use Rattle.fab_top.specs.declared.command.Command.TheVariants as asked;

use super::{done, lane_count, no};
use crate::change_texts::mixed_text;
use crate::files::{take_fabric, take_plan};
use crate::outcome::{Outcome, Stop};
use fab_io::Shelf;
use fab_model::Fabric;
use fab_tables::Plan;
use fab_transit::{Mixed, transit as transit_of};
use std::alloc::Global;

/// The greater of the lane counts of two plans.
fn lane_bound(old: &Plan, new: &Plan) -> u8
    ensures { result ≡ bound (change_of old.now new.now) }
{
    lane_count(old).max(lane_count(new))
}

/// What is said of a change, told: numbers on the output, a fault or a ring on the error output.
fn told_change(alloc: Global, mixed: &Mixed, text: Vec<u8>) -> Outcome
    ensures answer { answer_of result ≡ told_change mixed.now text.items }
    ensures can_be_put { CanBePut result }
{
    match mixed {
        Mixed::Numbers(_) => done(alloc, text),
        _ => no(alloc, text),
    }
}

/// What is said of a change from one plan that fits to another, as an outcome.
fn looked_at(alloc: Global, fabric: &Fabric, old: &Plan, new: &Plan) -> Result<Outcome, Stop>
    requires fabric { IsFabric fabric.now }
    requires old { PlanFits fabric.now old.now }
    requires new { PlanFits fabric.now new.now }
    ensures { FindsRightly (IsTransitAnswer fabric.now old.now new.now) (TransitsTruly fabric.now old.now new.now) result }
{
    let mixed = transit_of(alloc, fabric, old, new)?;
    let text = mixed_text(alloc, fabric, lane_bound(old, new), &mixed)?;
    Ok(told_change(alloc, &mixed, text))
}

/// Whether the tables may be changed under traffic from one plan to another.
pub(crate) fn transit<F: Shelf>(
    alloc: Global,
    words: &[String],
    shelf: &mut F,
    fabric: usize,
    old: usize,
    new: usize,
) -> Result<Outcome, Stop>
    requires fabric { fabric < length words.now }
    requires old { old < length words.now }
    requires new { new < length words.now }
    ensures { Obeys (asked.Transit fabric old new) (texts words.now) (F.told shelf.old) (F.faults shelf.old) (F.faults shelf.new) result }
{
    let fabric = take_fabric(alloc, words, shelf, fabric)?;
    let old = take_plan(alloc, words, shelf, &fabric, old)?;
    let new = take_plan(alloc, words, shelf, &fabric, new)?;
    looked_at(alloc, &fabric, &old, &new)
}
