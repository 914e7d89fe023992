//! Plan texts, read.
//!
//! Problem: a text of bytes is to become the plan that it spells, or to be refused by the fault of its first
//! faulty line. Definition: `plan_of` in `specs/Reading.antt`, which reads line after line and keeps what was
//! said as a list of statements (`specs/Lines.antt`, `specs/Given.antt`). Cost: each line is read once, as it
//! stands in the text. Sources: docs/PLAN_TEXT.md for the versions of plan texts; plain dumps have the shape
//! that `ibroute` and `dump_lfts` print.
ghost use Rattle.std.specs.Prelude.{◌≡◌, ◌+◌, ◌≤◌, ◌<◌, length, drop, slice_range, IfOk, IfSome, option_map, None, Some, Ok, Err};
ghost use Rattle.std.specs.Str.Lines.{lines};
ghost use Rattle.fab_text.specs.Fronts.{line_at};
ghost use Rattle.fab_text.specs.Readings.{Gives};
ghost use Rattle.fab_model.specs.Topology.{Topology};
ghost use Rattle.fab_model.specs.WellFormed.{IsFabric};
ghost use Rattle.fab_tables.specs.Fit.{PlanFits, IsTidy};
ghost use Rattle.fab_dump.specs.Lines.{Form, State};
ghost use Rattle.fab_dump.specs.Orderly.{IsOrderly};
ghost use Rattle.fab_dump.specs.Reading.{plan_of, lane_count, read_lines, read_version, version_named, version_read, wants_memory};
ghost use Rattle.fab_dump.specs.Standing.{Stands};

use crate::fault::PlanFault;
use crate::fields::dec_up_to;
use crate::form::{Step, Version};
use crate::reader::PlanReader;
use crate::rows::{behind, only_field};
use fab_model::Fabric;
use fab_tables::Plan;
use fab_text::{Line, next_line};
use std::alloc::Global;

/// What the first line of a plan begins with.
const PLAN_MARK: &[u8] = b"fabroute plan ";

/// What the second line of a plan begins with.
const LANES_MARK: &[u8] = b"lanes ";

/// Version 1 is read for fabrics of at most so many switches.
const VERSION_1_SWITCHES: u32 = 512;

/// And of at most so many LIDs in use.
const VERSION_1_LIDS: u32 = 4096;

/// The version that the first line of a plan names, where it is read for the fabric.
fn version_in(fabric: &Fabric, line: &[u8]) -> Option<Version>
    ensures { result ≡ version_read fabric.now (version_named line.now) }
{
    match dec_up_to(3, only_field(behind(PLAN_MARK, line))?)? {
        1 if fabric.switches() <= VERSION_1_SWITCHES && fabric.lids() <= VERSION_1_LIDS => {
            Some(Version::One)
        }
        2 => Some(Version::Two),
        3 => Some(Version::Three),
        _ => None,
    }
}

/// The lane count that the second line of a plan names, or that it has no lanes.
fn count_in(line: &[u8]) -> Option<Option<u8>>
    ensures count { result ≡ lane_count line.now }
    ensures within { IfSome result (λ count. IfSome count (λ n. (0 < n) × (n ≤ 15))) }
{
    if !line.starts_with(LANES_MARK) {
        return None;
    }
    let field = only_field(behind(LANES_MARK, line))?;
    if field == b"none".as_slice() {
        return Some(None);
    }
    match dec_up_to(15, field)? {
        0 => None,
        count => Some(Some(count as u8)),
    }
}

/// Reads the lines of a text from a place on, which are numbered behind `line`.
fn read_lines(
    mut reader: PlanReader,
    text: &[u8],
    mut from: usize,
    mut line: u32,
) -> Result<Plan, PlanFault>
    requires text { length text.now ≤ 536870912 }
    requires from { from ≤ length text.now }
    requires line { line ≤ from }
    requires read { (t : Topology) × (f : Form) × (s : State) × Stands t f s reader × IsOrderly t f s }
    ensures exact { (t : Topology) (f : Form) (s : State) → Stands t f s reader.entry → IsOrderly t f s → Gives wants_memory result (read_lines t f (line + 1) s (lines (drop from text.now))) }
    ensures kept { IfOk result (λ _. IsFabric reader.entry.fabric.now) }
{
    while let Some(found) = next_line(text, from) {
        line += 1;
        match reader.line(line, &text[found.start..found.end]) {
            Ok(Step::Goes) => from = found.next,
            Ok(Step::Ends) => return Ok(reader.into_plan()),
            Err(why) => return Err(why),
        }
    }
    if reader.version.is_dump() {
        Ok(reader.into_plan())
    } else {
        Err(PlanFault::NoEnd)
    }
}

/// Reads a plan behind its first line.
fn read_body(alloc: Global, fabric: &Fabric, text: &[u8], first: Line) -> Result<Plan, PlanFault>
    requires text { length text.now ≤ 536870912 }
    requires first { line_at text.now 0 ≡ Some first }
    ensures kept { IfOk result (λ _. IsFabric fabric.now) }
    ensures exact { Gives wants_memory result (read_version fabric.now (lines (drop first.next text.now)) (version_read fabric.now (version_named (slice_range text.now first.start first.end)))) }
{
    let Some(version) = version_in(fabric, &text[first.start..first.end]) else {
        return Err(PlanFault::Version { line: 1 });
    };
    let Some(second) = next_line(text, first.next) else {
        return Err(PlanFault::NoEnd);
    };
    let Some(count) = count_in(&text[second.start..second.end]) else {
        return Err(PlanFault::BadRow { line: 2 });
    };
    match PlanReader::new(alloc, fabric, version, count) {
        Ok(reader) => read_lines(reader, text, second.next, 2),
        Err(fault) => Err(PlanFault::Memory(fault)),
    }
}

/// The plan that a text spells, or the fault of its first faulty line; `NoEnd` where no line is faulty and the
/// end is missing.
///
/// A text whose first line begins with `fabroute plan ` is a plan, and is read to its line `end plan`. Its version
/// is 2 or 3, or 1 for a fabric of at most 512 switches and 4,096 LIDs. Any other text is read as a plain dump of
/// forwarding tables, in the shape that `ibroute` prints, to its end. What a text says nothing of is 255, no
/// level, lane 15 and number 0.
///
/// Time: the bytes of the text, a look-up by GUID for each head and number row, the plan, and for each head of a
/// table or levels block the LIDs in use; the map of a pair moves those of later pairs. Memory: the plan, three
/// bytes a switch and one a LID in use; nothing for a line.
pub fn read_plan(alloc: Global, fabric: &Fabric, text: &[u8]) -> Result<Plan, PlanFault>
    requires { length text.now ≤ 536870912 }
    ensures exact { Gives wants_memory result (plan_of fabric.now text.now) }
    ensures fits { IfOk result (λ plan. PlanFits fabric.now plan) }
    ensures tidy { IfOk result (λ plan. IsTidy fabric.now plan) }
{
    match next_line(text, 0) {
        Some(first) if text[first.start..first.end].starts_with(PLAN_MARK) => {
            read_body(alloc, fabric, text, first)
        }
        _ => match PlanReader::new(alloc, fabric, Version::Dump, None) {
            Ok(reader) => read_lines(reader, text, 0, 0),
            Err(fault) => Err(PlanFault::Memory(fault)),
        },
    }
}
