//! The lines of groups: for each its number and the entries of the switches, in time and memory of the entries; and the
//! LIDs of terminals, in time and memory of these.
ghost use Rattle.std.specs.Prelude.{◌≡◌, ◌<◌, ◌++◌, All, length, codes, flat_map, IfOk, OnOk};
ghost use Rattle.std.specs.List.{enumerate_from};
ghost use Rattle.fab_model.specs.declared.rows.TerminalId.{TerminalId as Number};
ghost use Rattle.fab_dump.specs.Writing.{hex4};
ghost use Rattle.fab_mcast.specs.GroupTrees.{Planted, entries_at};
ghost use Rattle.fab_top.specs.GroupTexts.{port_word, entry_text, entry_row, group_text, group_row, groups_text, lid_text, lid_row};

use crate::texts::push_guid;
use fab_mcast::{GroupTables, Groups};
use fab_model::{Fabric, Lid, SwitchId, TerminalId};
use fab_text::{push_hex4, push_port3};
use std::alloc::{AllocError, Global};

/// A port of an entry.
#[tactic(auto, unfolding(fab_dump::specs::Writing::port3))]
fn push_port_word(to: &mut Vec<u8>, port: u8) -> Result<(), AllocError>
    ensures { OnOk result (to.new.items ≡ to.old.items ++ port_word port) }
{
    to.extend_from_slice(b" ")?;
    push_port3(to, port)
}

/// The ports of an entry.
fn push_port_words(to: &mut Vec<u8>, ports: &[u8]) -> Result<(), AllocError>
    ensures { OnOk result (to.new.items ≡ to.old.items ++ flat_map port_word ports.now) }
{
    for port in ports {
        push_port_word(to, *port)?;
    }
    Ok(())
}

/// The entry of a switch; a switch without ports has none.
fn push_entry(
    to: &mut Vec<u8>,
    fabric: &Fabric,
    s: SwitchId,
    ports: &[u8],
) -> Result<(), AllocError>
    ensures { OnOk result (to.new.items ≡ to.old.items ++ entry_text fabric.now s.0 ports.now) }
{
    if ports.is_empty() {
        return Ok(());
    }
    push_guid(to, fabric, s)?;
    push_port_words(to, ports)?;
    to.extend_from_slice(b"\n")
}

/// The entries of a group's table, by switch.
fn push_entries(
    to: &mut Vec<u8>,
    fabric: &Fabric,
    tables: &GroupTables,
    index: u32,
) -> Result<(), AllocError>
    requires index { index < length tables.now }
    requires each { length (entries_at tables.now index) ≡ length fabric.now.switches }
    ensures { OnOk result (to.new.items ≡ to.old.items ++ flat_map (entry_row fabric.now) (enumerate_from 0 (entries_at tables.now index))) }
{
    for s in 0..fabric.switches() {
        let ports = tables.ports(index, SwitchId(s));
        push_entry(to, fabric, SwitchId(s), ports)?;
    }
    Ok(())
}

/// The line with which a group begins.
#[tactic(auto, unfolding(fab_dump::specs::Writing::hex4))]
fn push_group_head(to: &mut Vec<u8>, number: u16) -> Result<(), AllocError>
    ensures { OnOk result (to.new.items ≡ to.old.items ++ (codes "Group " ++ hex4 number ++ codes ":\n")) }
{
    to.extend_from_slice(b"Group 0x")?;
    push_hex4(to, number)?;
    to.extend_from_slice(b":\n")
}

/// A group by its number, and the entries of its table.
fn push_group(
    to: &mut Vec<u8>,
    fabric: &Fabric,
    number: u16,
    tables: &GroupTables,
    index: u32,
) -> Result<(), AllocError>
    requires index { index < length tables.now }
    requires each { length (entries_at tables.now index) ≡ length fabric.now.switches }
    ensures { OnOk result (to.new.items ≡ to.old.items ++ group_text fabric.now number (entries_at tables.now index)) }
{
    push_group_head(to, number)?;
    push_entries(to, fabric, tables, index)
}

/// All groups, with their tables.
fn push_groups(
    to: &mut Vec<u8>,
    fabric: &Fabric,
    groups: &Groups,
    tables: &GroupTables,
) -> Result<(), AllocError>
    requires as_many { length tables.now ≡ length groups.now }
    requires each { All (λ (g : Planted). length g.ports ≡ length fabric.now.switches) tables.now }
    ensures { OnOk result (to.new.items ≡ to.old.items ++ flat_map (group_row fabric.now tables.now) (enumerate_from 0 groups.now)) }
{
    for index in 0..groups.count() {
        push_group(to, fabric, groups.number(index), tables, index)?;
    }
    Ok(())
}

/// The lines of all groups, with their tables.
pub(crate) fn groups_text(
    alloc: Global,
    fabric: &Fabric,
    groups: &Groups,
    tables: &GroupTables,
) -> Result<Vec<u8>, AllocError>
    requires as_many { length tables.now ≡ length groups.now }
    requires each { All (λ (g : Planted). length g.ports ≡ length fabric.now.switches) tables.now }
    ensures { IfOk result (λ text. text.items ≡ groups_text fabric.now groups.now tables.now) }
{
    let mut text = Vec::from_slice(alloc, b"fabroute groups 1\n")?;
    push_groups(&mut text, fabric, groups, tables)?;
    text.extend_from_slice(b"end groups\n")?;
    Ok(text)
}

/// A LID.
#[tactic(auto, unfolding(fab_dump::specs::Writing::hex4))]
fn push_lid(to: &mut Vec<u8>, lid: Lid) -> Result<(), AllocError>
    ensures { OnOk result (to.new.items ≡ to.old.items ++ lid_text lid.0) }
{
    to.extend_from_slice(b"0x")?;
    push_hex4(to, lid.0)?;
    to.extend_from_slice(b"\n")
}

/// The LID of a terminal.
fn push_lid_of(to: &mut Vec<u8>, fabric: &Fabric, terminal: TerminalId) -> Result<(), AllocError>
    requires { terminal.0 < length fabric.now.terminals }
    ensures { OnOk result (to.new.items ≡ to.old.items ++ lid_row fabric.now terminal.0) }
{
    push_lid(to, fabric.terminal(terminal).lid)
}

/// The LIDs of terminals.
fn push_lids(to: &mut Vec<u8>, fabric: &Fabric, terminals: &[TerminalId]) -> Result<(), AllocError>
    requires { All (λ (n : Number). n.0 < length fabric.now.terminals) terminals.now }
    ensures { OnOk result (to.new.items ≡ to.old.items ++ flat_map (λ (n : Number). lid_row fabric.now n.0) terminals.now) }
{
    for terminal in terminals {
        push_lid_of(to, fabric, *terminal)?;
    }
    Ok(())
}

/// The lines of the LIDs of terminals.
pub(crate) fn spread_text(
    alloc: Global,
    fabric: &Fabric,
    terminals: &[TerminalId],
) -> Result<Vec<u8>, AllocError>
    requires { All (λ (n : Number). n.0 < length fabric.now.terminals) terminals.now }
    ensures { IfOk result (λ text. text.items ≡ flat_map (λ (n : Number). lid_row fabric.now n.0) terminals.now) }
{
    let mut text = Vec::new(alloc);
    push_lids(&mut text, fabric, terminals)?;
    Ok(text)
}
