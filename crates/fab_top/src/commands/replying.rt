//! The command on replies: a plan is read, and it is told whether the answers to its packets keep an order with them. The
//! time and memory are those of reading the files and of looking at packets and replies.
ghost use Rattle.std.specs.Prelude.{◌≡◌, ◌<◌, length};
ghost use Rattle.fab_model.specs.WellFormed.{IsFabric};
ghost use Rattle.fab_tables.specs.Fit.{PlanFits};
ghost use Rattle.fab_top.specs.Answers.{IsRepliesAnswer, told_replies};
ghost use Rattle.fab_top.specs.Headline.{RepliesTruly};
ghost use Rattle.fab_top.specs.Outcomes.{Obeys, FindsRightly, CanBePut, answer_of};
ghost use Rattle.fab_top.specs.Words.{texts};
ghost use Rattle.fab_top.specs.declared.command.Command.TheVariants as asked;

use super::{done, lane_count, no};
use crate::files::{take_fabric, take_plan};
use crate::outcome::{Outcome, Stop};
use crate::reply_texts::replied_text;
use fab_io::Shelf;
use fab_model::Fabric;
use fab_replies::{Replied, replies as replies_of};
use fab_tables::Plan;
use std::alloc::Global;

/// What is said of replies, told: numbers on the output, a fault or a ring on the error output.
fn told_replies(alloc: Global, replied: &Replied, text: Vec<u8>) -> Outcome
    ensures answer { answer_of result ≡ told_replies replied.now text.items }
    ensures can_be_put { CanBePut result }
{
    match replied {
        Replied::Numbers(_) => done(alloc, text),
        _ => no(alloc, text),
    }
}

/// What is said of the replies of a plan that fits, as an outcome.
fn answered(alloc: Global, fabric: &Fabric, plan: &Plan) -> Result<Outcome, Stop>
    requires fabric { IsFabric fabric.now }
    requires fits { PlanFits fabric.now plan.now }
    ensures { FindsRightly (IsRepliesAnswer fabric.now plan.now) (RepliesTruly fabric.now plan.now) result }
{
    let replied = replies_of(alloc, fabric, plan)?;
    let text = replied_text(alloc, fabric, lane_count(plan), &replied)?;
    Ok(told_replies(alloc, &replied, text))
}

/// Whether the answers to a plan's packets keep an order with them.
pub(crate) fn replies<F: Shelf>(
    alloc: Global,
    words: &[String],
    shelf: &mut F,
    fabric: usize,
    plan: usize,
) -> Result<Outcome, Stop>
    requires fabric { fabric < length words.now }
    requires plan { plan < length words.now }
    ensures { Obeys (asked.Replies fabric plan) (texts words.now) (F.told shelf.old) (F.faults shelf.old) (F.faults shelf.new) result }
{
    let fabric = take_fabric(alloc, words, shelf, fabric)?;
    let plan = take_plan(alloc, words, shelf, &fabric, plan)?;
    answered(alloc, &fabric, &plan)
}
