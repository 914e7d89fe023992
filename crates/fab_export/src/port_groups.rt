//! Groups of ports, appended to a text of bytes.
//!
//! Each call takes the time of the bytes that it appends and room for them; a group of a class looks at each switch,
//! and one of a class and a level at each LID.
ghost use Rattle.std.specs.Prelude.{◌≡◌, ◌<◌, ◌++◌, ◌∷◌, [], length, map, filter, flat_map, OnOk};
ghost use Rattle.std.specs.List.{range_with_len};
ghost use Rattle.fab_model.specs.Topology.{lids_of};
ghost use Rattle.fab_model.specs.WellFormed.{IsFabric};
ghost use Rattle.fab_dump.specs.Writing.{lines_text};
ghost use Rattle.fab_export.specs.ClassNumbers.{is_of_class};
ghost use Rattle.fab_export.specs.LevelsText.{port_guid_line, group_lines};
ghost use Rattle.fab_export.specs.Policies.{class_name};
ghost use Rattle.fab_export.specs.PortGuids as guids;
ghost use Rattle.fab_export.specs.SourceLevels.{row_group};

use crate::classes::Classes;
use crate::port_guids::port_guid_of;
use fab_dump::push_guid;
use fab_model::{Fabric, SwitchId};
use fab_text::{push, push_dec};
use std::alloc::AllocError;

/// Appends the line of a port.
#[tactic(auto, unfolding(crate::specs::LevelsText::port_guid_line))]
fn push_port(text: &mut Vec<u8>, guid: u64) -> Result<(), AllocError>
    ensures { OnOk result (text.new.items ≡ text.old.items ++ lines_text (port_guid_line guid ∷ [])) }
{
    push(text, b"port-guid: ")?;
    push_guid(text, guid)?;
    push(text, b"\n")
}

/// Appends the line of the terminal at a port of a switch, if there is one.
fn push_terminal_at(
    text: &mut Vec<u8>,
    fabric: &Fabric,
    switch: SwitchId,
    port: u8,
) -> Result<(), AllocError>
    requires { switch.0 < length fabric.now.switches }
    ensures { OnOk result (text.new.items ≡ text.old.items ++ lines_text (map port_guid_line (guids.guids_at fabric.now switch.0 port))) }
{
    match fabric.terminal_at(switch, port) {
        Some(terminal) => push_port(text, fabric.terminal(terminal).port_guid),
        None => Ok(()),
    }
}

/// Appends the lines of a source's ports: its own, and then those of its terminals by port.
fn push_source(text: &mut Vec<u8>, fabric: &Fabric, source: SwitchId) -> Result<(), AllocError>
    requires switch { source.0 < length fabric.now.switches }
    requires rows { IsFabric fabric.now }
    ensures { OnOk result (text.new.items ≡ text.old.items ++ lines_text (map port_guid_line (guids.source_guids fabric.now source.0))) }
{
    let row = fabric.switch(source);
    push_port(text, row.guid)?;
    for port in 1..=row.ports {
        push_terminal_at(text, fabric, source, port)?;
    }
    Ok(())
}

/// Appends the lines of a switch's ports, if it is a source of the class.
fn push_source_of(
    text: &mut Vec<u8>,
    fabric: &Fabric,
    classes: &Classes,
    class: usize,
    switch: SwitchId,
) -> Result<(), AllocError>
    requires switch { switch.0 < length fabric.now.switches }
    requires rows { IsFabric fabric.now }
    requires counted { length classes.now.numbers ≡ length fabric.now.switches }
    ensures { OnOk result (text.new.items ≡ text.old.items ++ lines_text (map port_guid_line (flat_map (guids.source_guids fabric.now) (filter (is_of_class classes.now class) (switch.0 ∷ []))))) }
{
    if classes.number_of(switch) == Some(class) {
        push_source(text, fabric, switch)
    } else {
        Ok(())
    }
}

/// Appends the lines of the ports of a class's sources.
fn push_sources(
    text: &mut Vec<u8>,
    fabric: &Fabric,
    classes: &Classes,
    class: usize,
) -> Result<(), AllocError>
    requires { length classes.now.numbers ≡ length fabric.now.switches }
    ensures { OnOk result (text.new.items ≡ text.old.items ++ lines_text (map port_guid_line (flat_map (guids.source_guids fabric.now) (filter (is_of_class classes.now class) (range_with_len 0 (length fabric.now.switches)))))) }
{
    for switch in 0..fabric.switches() {
        push_source_of(text, fabric, classes, class, SwitchId(switch))?;
    }
    Ok(())
}

/// Appends the group of a class's sources.
pub(crate) fn push_class_group(
    text: &mut Vec<u8>,
    fabric: &Fabric,
    classes: &Classes,
    class: usize,
) -> Result<(), AllocError>
    requires { length classes.now.numbers ≡ length fabric.now.switches }
    ensures { OnOk result (text.new.items ≡ text.old.items ++ lines_text (group_lines (record { name = class_name class; guids = flat_map (guids.source_guids fabric.now) (filter (is_of_class classes.now class) (range_with_len 0 (length fabric.now.switches))) }))) }
{
    push(text, b"port-group\nname: class")?;
    push_dec(text, class as u64)?;
    push(text, b"\n")?;
    push_sources(text, fabric, classes, class)?;
    push(text, b"end-port-group\n")
}

/// Appends the lines of the ports of the LIDs at which a row has a level.
fn push_ports_with(
    text: &mut Vec<u8>,
    fabric: &Fabric,
    row: &[Option<u8>],
    level: u8,
) -> Result<(), AllocError>
    requires { length row.now ≡ length (lids_of fabric.now) }
    ensures { OnOk result (text.new.items ≡ text.old.items ++ lines_text (map port_guid_line (row_group fabric.now 0 row.now level).guids)) }
{
    for (place, lid) in fabric.lids_in_use().iter().enumerate() {
        if row[place] == Some(level) {
            push_port(text, port_guid_of(fabric, *lid))?;
        }
    }
    Ok(())
}

/// Appends the group of the LIDs at which a class has a level; its levels stand in the row.
pub(crate) fn push_level_group(
    text: &mut Vec<u8>,
    fabric: &Fabric,
    class: usize,
    row: &[Option<u8>],
    level: u8,
) -> Result<(), AllocError>
    requires { length row.now ≡ length (lids_of fabric.now) }
    ensures { OnOk result (text.new.items ≡ text.old.items ++ lines_text (group_lines (row_group fabric.now class row.now level))) }
{
    push(text, b"port-group\nname: class")?;
    push_dec(text, class as u64)?;
    push(text, b"level")?;
    push_dec(text, u64::from(level))?;
    push(text, b"\n")?;
    push_ports_with(text, fabric, row, level)?;
    push(text, b"end-port-group\n")
}
