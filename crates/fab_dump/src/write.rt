//! Plans, written as texts.
//!
//! Problem: the text of a plan goes to a sink, with no more of it in memory than the rows of one switch.
//! Definition: `plan_text` in `specs/Writing.antt`, the lines of docs/PLAN_TEXT.md in version 2, or 3 where a
//! pair of ports has a map. A text is read again by `read_plan` (the laws of this crate).
ghost use Rattle.std.specs.Prelude.{◌≡◌, ◌≤◌};
ghost use Rattle.std.specs.List.{flat_map, enumerate_from};
ghost use Rattle.fab_tables.specs.Fit.{PlanFits, EntriesFit, LanesFit};
ghost use Rattle.fab_dump.specs.declared.write.WriteFault.TheVariants.{Memory};
ghost use Rattle.fab_dump.specs.Writing as writing;

use crate::write_blocks::{
    push_levels_block, push_map_block, push_numbers, push_start, push_table_block,
};
use fab_io::{PutFault, Sink};
use fab_model::{ChannelId, Fabric, SwitchId};
use fab_tables::{Lanes, Plan, Tables};
use std::alloc::{AllocError, Global};
use thiserror::Error;

/// Why a text was not written to its end.
#[derive(Debug, Drop, Error)]
pub enum WriteFault {
    /// The sink failed, and its count tells it.
    #[error("it cannot be written")]
    Failed,
    #[error("out of memory")]
    Memory(AllocError),
}

impl From<AllocError> for WriteFault {
    ghost from_gives = { λ refused fault. fault ≡ Memory refused };

    fn from(refused: AllocError) -> WriteFault {
        WriteFault::Memory(refused)
    }
}

/// Puts a piece of a text. The fault tells whether the sink failed or memory was wanted.
pub fn put<S: Sink>(sink: &mut S, piece: &[u8]) -> Result<(), WriteFault>
    ensures { writing.PutsText piece.now (S.told sink.old) (S.told sink.new) (S.faults sink.old) (S.faults sink.new) result }
{
    match sink.put(piece) {
        Ok(()) => Ok(()),
        Err(PutFault::Failed) => Err(WriteFault::Failed),
        Err(PutFault::Memory(refused)) => Err(WriteFault::Memory(refused)),
    }
}

/// Puts the table blocks of all switches.
fn put_tables<S: Sink>(
    sink: &mut S,
    piece: &mut Vec<u8>,
    fabric: &Fabric,
    tables: &Tables,
) -> Result<(), WriteFault>
    requires { EntriesFit fabric.now tables.now }
    ensures { writing.PutsText (writing.lines_text (flat_map (writing.table_block fabric.now tables.now) (enumerate_from 0 fabric.now.switches))) (S.told sink.old) (S.told sink.new) (S.faults sink.old) (S.faults sink.new) result }
{
    for switch in 0..fabric.switches() {
        piece.clear();
        push_table_block(piece, fabric, tables, SwitchId(switch))?;
        put(sink, piece)?;
    }
    Ok(())
}

/// Puts the levels blocks of all sources.
fn put_levels<S: Sink>(
    sink: &mut S,
    piece: &mut Vec<u8>,
    fabric: &Fabric,
    lanes: &Lanes,
) -> Result<(), WriteFault>
    requires { LanesFit fabric.now lanes.now }
    ensures { writing.PutsText (writing.lines_text (flat_map (writing.levels_block fabric.now lanes.now) (enumerate_from 0 fabric.now.switches))) (S.told sink.old) (S.told sink.new) (S.faults sink.old) (S.faults sink.new) result }
{
    for switch in 0..fabric.switches() {
        piece.clear();
        push_levels_block(piece, fabric, lanes, SwitchId(switch))?;
        put(sink, piece)?;
    }
    Ok(())
}

/// Puts the lane maps of all switches.
fn put_maps<S: Sink>(
    sink: &mut S,
    piece: &mut Vec<u8>,
    fabric: &Fabric,
    lanes: &Lanes,
) -> Result<(), WriteFault>
    requires { LanesFit fabric.now lanes.now }
    ensures { writing.PutsText (writing.lines_text (flat_map (writing.map_block lanes.now) (enumerate_from 0 fabric.now.switches))) (S.told sink.old) (S.told sink.new) (S.faults sink.old) (S.faults sink.new) result }
{
    let mut first = 0;
    for switch in 0..fabric.switches() {
        piece.clear();
        first = push_map_block(piece, fabric, lanes, SwitchId(switch), first)?;
        put(sink, piece)?;
    }
    Ok(())
}

/// Puts the number rows of all channels.
fn put_numbers<S: Sink>(
    sink: &mut S,
    piece: &mut Vec<u8>,
    fabric: &Fabric,
    lanes: &Lanes,
) -> Result<(), WriteFault>
    requires { LanesFit fabric.now lanes.now }
    ensures { writing.PutsText (writing.lines_text (flat_map (writing.number_lines fabric.now lanes.now) (enumerate_from 0 fabric.now.channels))) (S.told sink.old) (S.told sink.new) (S.faults sink.old) (S.faults sink.new) result }
{
    for channel in 0..fabric.channels() {
        piece.clear();
        push_numbers(piece, fabric, lanes, ChannelId(channel))?;
        put(sink, piece)?;
    }
    Ok(())
}

/// Puts all that a text tells of lanes.
fn put_lanes<S: Sink>(
    sink: &mut S,
    piece: &mut Vec<u8>,
    fabric: &Fabric,
    lanes: &Lanes,
) -> Result<(), WriteFault>
    requires { LanesFit fabric.now lanes.now }
    ensures { writing.PutsText (writing.lines_text (writing.lane_lines fabric.now lanes.now)) (S.told sink.old) (S.told sink.new) (S.faults sink.old) (S.faults sink.new) result }
{
    put_levels(sink, piece, fabric, lanes)?;
    put_maps(sink, piece, fabric, lanes)?;
    put(sink, b"Certificate:\n")?;
    put_numbers(sink, piece, fabric, lanes)
}

/// Puts what a plan's text tells of lanes, if the plan has any.
fn put_lane_part<S: Sink>(
    sink: &mut S,
    piece: &mut Vec<u8>,
    fabric: &Fabric,
    plan: &Plan,
) -> Result<(), WriteFault>
    requires { PlanFits fabric.now plan.now }
    ensures { writing.PutsText (writing.lines_text (writing.lane_part fabric.now plan.now.lanes)) (S.told sink.old) (S.told sink.new) (S.faults sink.old) (S.faults sink.new) result }
{
    match &plan.lanes {
        Some(lanes) => put_lanes(sink, piece, fabric, lanes),
        None => Ok(()),
    }
}

/// Puts the text of a plan: in version 3 where a pair of ports has a map, else in version 2. After a fault the
/// sink has a prefix of the text.
///
/// Time: the text, some 4 bytes for each switch and LID, 3 more with lanes, and 35 for each number. Memory: the
/// text of one block at a time, some 4 bytes a LID. One put a block or a channel.
pub fn write_plan<S: Sink>(
    alloc: Global,
    fabric: &Fabric,
    plan: &Plan,
    sink: &mut S,
) -> Result<(), WriteFault>
    requires { PlanFits fabric.now plan.now }
    ensures text { writing.Writes (writing.plan_text fabric.now plan.now) (S.told sink.old) (S.told sink.new) result }
    ensures cause { writing.CountsWrite (S.faults sink.old) (S.faults sink.new) result }
    ensures none_fell { S.faults sink.old ≤ S.faults sink.new }
{
    let mut piece = Vec::new(alloc);
    push_start(&mut piece, plan)?;
    put(sink, &piece)?;
    put_tables(sink, &mut piece, fabric, &plan.tables)?;
    put_lane_part(sink, &mut piece, fabric, plan)?;
    put(sink, b"end plan\n")
}
