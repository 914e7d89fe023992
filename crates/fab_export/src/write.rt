//! The text of a part of a plan, put to a sink.
//!
//! Problem: one of the three texts by which a subnet manager runs a plan. Definition: `part_text` in
//! `specs/Parts.antt`. Whether the plan is fit was looked at before, so a fault comes only from the sink or from want of
//! memory. Beside the text itself it takes the time and the memory of the fabric's components.
ghost use Rattle.std.specs.Prelude.{◌≡◌, ◌<◌, ◌≤◌, IfSome};
ghost use Rattle.fab_tables.specs.Fit.{PlanFits, LanesFit};
ghost use Rattle.fab_dump.specs.Writing as writing;
ghost use Rattle.fab_dump.specs.Writing.{Writes, CountsWrite};
ghost use Rattle.fab_export.specs.Parts.{part_text};
ghost use Rattle.fab_export.specs.Unfits.{IsFit};

use crate::config::write_config;
use crate::levels::write_levels;
use crate::part::Part;
use crate::reached::Reached;
use crate::tables::write_tables;
use fab_dump::WriteFault;
use fab_io::Sink;
use fab_model::Fabric;
use fab_tables::{Components, Plan};
use std::alloc::Global;

/// Puts the text of a part of a plan whose routes all reach. A plan without lanes has no levels.
fn put_part<S: Sink>(
    alloc: Global,
    reached: &Reached,
    plan: &Plan,
    part: Part,
    sink: &mut S,
) -> Result<(), WriteFault>
    requires tables { reached.now.entries ≡ plan.now.tables }
    requires lanes { IfSome plan.now.lanes (LanesFit reached.now.fabric) }
    requires some { IfSome plan.now.lanes (λ l. 0 < l.switches) }
    ensures { writing.PutsText (part_text part reached.now.fabric plan.now) (S.told sink.old) (S.told sink.new) (S.faults sink.old) (S.faults sink.new) result }
{
    match part {
        Part::Tables => write_tables(alloc, reached, sink),
        Part::Levels => match &plan.lanes {
            Some(lanes) => write_levels(alloc, reached, lanes, sink),
            None => Ok(()),
        },
        Part::Config => write_config(alloc, reached, plan.lanes.as_ref(), sink),
    }
}

/// Puts the text of a part of a plan that `check_fit` lets through. It holds no more of the text at a time than
/// the rows of one switch or of one group. After a fault the sink has a prefix of the text.
pub fn write_part<S: Sink>(
    alloc: Global,
    fabric: &Fabric,
    plan: &Plan,
    part: Part,
    sink: &mut S,
) -> Result<(), WriteFault>
    requires fits { PlanFits fabric.now plan.now }
    requires fit { IsFit fabric.now plan.now part }
    ensures text { Writes (part_text part fabric.now plan.now) (S.told sink.old) (S.told sink.new) result }
    ensures cause { CountsWrite (S.faults sink.old) (S.faults sink.new) result }
    ensures none_fell { S.faults sink.old ≤ S.faults sink.new }
{
    let components = Components::of(alloc, fabric)?;
    let reached = Reached::new(fabric, &plan.tables, &components);
    put_part(alloc, &reached, plan, part, sink)
}
