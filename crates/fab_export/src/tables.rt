//! The text of the tables, put to a sink.
//!
//! Problem: a row for each switch and each LID that it reaches, with no more of the text in memory than the rows of
//! one switch. Definition: `tables_text` in `specs/TablesText.antt`; the subnet manager reads it as its file of
//! forwarding tables. A switch takes a step for each LID in use and 41 bytes for each row; memory for these bytes.
ghost use Rattle.std.specs.Prelude.{◌≡◌, ◌<◌, ◌++◌, ◌∷◌, [], IfSome, OnOk, length, map, slice_get, Contains};
ghost use Rattle.std.specs.List.{flat_map, enumerate_from};
ghost use Rattle.fab_model.specs.Topology.{lids_of};
ghost use Rattle.fab_dump.specs.Writing as writing;
ghost use Rattle.fab_export.specs.TablesText.{table_row, rows_to, table_row_text, exported_block, tables_text};

use crate::port_guids::port_guid_of;
use crate::reached::Reached;
use fab_dump::{WriteFault, push_guid, push_lid, push_port, push_table_head, put};
use fab_io::Sink;
use fab_model::{Lid, SwitchId};
use fab_text::push;
use std::alloc::{AllocError, Global};

/// Appends the row of a LID: the port by which a switch forwards to it, and its port GUID.
#[tactic(auto, unfolding(crate::specs::TablesText::table_row_text))]
fn push_row(
    text: &mut Vec<u8>,
    reached: &Reached,
    switch: SwitchId,
    lid: Lid,
) -> Result<(), AllocError>
    requires switch { switch.0 < length reached.now.fabric.switches }
    requires lid { Contains (lids_of reached.now.fabric) lid.0 }
    ensures { OnOk result (text.new.items ≡ text.old.items ++ table_row_text (table_row reached.now.fabric reached.now.entries switch.0 lid.0)) }
{
    push_lid(text, lid)?;
    push(text, b" ")?;
    push_port(text, reached.port(switch, lid))?;
    push(text, b" : portguid ")?;
    push_guid(text, port_guid_of(reached.fabric(), lid))
}

/// Appends the line of a LID's row, if the switch reaches the LID.
fn push_line(
    text: &mut Vec<u8>,
    reached: &Reached,
    switch: SwitchId,
    lid: Lid,
) -> Result<(), AllocError>
    requires switch { switch.0 < length reached.now.fabric.switches }
    requires lid { Contains (lids_of reached.now.fabric) lid.0 }
    ensures { OnOk result (text.new.items ≡ text.old.items ++ writing.lines_text (map table_row_text (rows_to reached.now.fabric reached.now.entries switch.0 (lid.0 ∷ [])))) }
{
    if !reached.reaches(switch, lid) {
        return Ok(());
    }
    push_row(text, reached, switch, lid)?;
    push(text, b"\n")
}

/// Appends the rows of a switch.
fn push_rows(text: &mut Vec<u8>, reached: &Reached, switch: SwitchId) -> Result<(), AllocError>
    requires { switch.0 < length reached.now.fabric.switches }
    ensures { OnOk result (text.new.items ≡ text.old.items ++ writing.lines_text (map table_row_text (rows_to reached.now.fabric reached.now.entries switch.0 (lids_of reached.now.fabric)))) }
{
    for lid in reached.lids() {
        push_line(text, reached, switch, *lid)?;
    }
    Ok(())
}

/// Appends the block of a switch.
fn push_block(text: &mut Vec<u8>, reached: &Reached, switch: SwitchId) -> Result<(), AllocError>
    requires { switch.0 < length reached.now.fabric.switches }
    ensures { OnOk result (IfSome (slice_get reached.now.fabric.switches switch.0) (λ row. text.new.items ≡ text.old.items ++ writing.lines_text (exported_block reached.now.fabric reached.now.entries (switch.0, row)))) }
{
    let fabric = reached.fabric();
    push_table_head(text, fabric, fabric.switch(switch))?;
    push(text, b"\n")?;
    push_rows(text, reached, switch)
}

/// Puts the blocks of all switches.
fn put_blocks<S: Sink>(alloc: Global, reached: &Reached, sink: &mut S) -> Result<(), WriteFault>
    ensures { writing.PutsText (writing.lines_text (flat_map (exported_block reached.now.fabric reached.now.entries) (enumerate_from 0 reached.now.fabric.switches))) (S.told sink.old) (S.told sink.new) (S.faults sink.old) (S.faults sink.new) result }
{
    let mut piece = Vec::new(alloc);
    for switch in 0..reached.fabric().switches() {
        piece.clear();
        push_block(&mut piece, reached, SwitchId(switch))?;
        put(sink, &piece)?;
    }
    Ok(())
}

/// Puts the text of the tables.
pub(crate) fn write_tables<S: Sink>(
    alloc: Global,
    reached: &Reached,
    sink: &mut S,
) -> Result<(), WriteFault>
    ensures { writing.PutsText (tables_text reached.now.fabric reached.now.entries) (S.told sink.old) (S.told sink.new) (S.faults sink.old) (S.faults sink.new) result }
{
    put(sink, b"# fabroute tables\n")?;
    put_blocks(alloc, reached, sink)
}
