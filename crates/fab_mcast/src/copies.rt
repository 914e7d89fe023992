//! Copies of a packet that is sent to a group.
//!
//! Problem: which terminals does a packet of a member reach? A copy stands at a switch, and came by a port. It is sent
//! on by each other port of the switch's entry: to the terminal there, which is reached, or as a copy to the switch
//! there. Definition: `IsSpread` in `specs/Spreads.antt`. The copies are followed depth first; there are no more of them
//! than switches in the component. Cost: a step for each port of their entries and for each terminal of the fabric.
//! Memory: 8 bytes for each copy that is still to be sent on, 1 for each terminal, and 4 for each that is reached.
ghost use Rattle.std.specs.Prelude.{◌≡◌, ◌<◌, ◌++◌, ◌||◌, ◌==◌, ◌^◌, ℕ, [], length, map, filter, filter_map, option_map, IfOk, OnOk, Contains, All};
ghost use Rattle.std.specs.List.{list_any, range_with_len};
ghost use Rattle.fab_model.specs.declared.rows.TerminalId.{TerminalId as Number};
ghost use Rattle.fab_model.specs.WellFormed.{IsFabric};
ghost use Rattle.fab_mcast.specs.GroupTrees.{Planted as Table, ArePlanted, entries_at, members_at};
ghost use Rattle.fab_mcast.specs.Spreads.{IsSpread, ReachesMembers};
ghost use Rattle.fab_mcast.specs.Sending.{seen_copy, seen_copies, copy_by, terminal_by, is_marked};

use crate::group_tables::GroupTables;
use fab_model::{Fabric, SwitchId, TerminalId};
use std::alloc::{AllocError, Global};

/// A copy of a packet: the switch where it stands, and the port by which it came there.
#[derive(Clone, Copy)]
struct PacketCopy {
    at: SwitchId,
    from: u8,
}

/// The copy that a copy gives by a port: at the switch there, where it is cabled to one and isn't the copy's own.
fn copy_by(fabric: &Fabric, copy: PacketCopy, port: u8) -> Option<PacketCopy>
    requires { copy.at.0 < length fabric.now.switches }
    ensures { option_map seen_copy result ≡ copy_by fabric.now (seen_copy copy) port }
{
    if port == copy.from {
        return None;
    }
    let channel = fabric.channel_at(copy.at, port)?;
    let row = fabric.channel(channel);
    Some(PacketCopy {
        at: row.tip,
        from: row.tip_port,
    })
}

/// The terminal that a copy reaches by a port.
fn terminal_by(fabric: &Fabric, copy: PacketCopy, port: u8) -> Option<TerminalId>
    requires { copy.at.0 < length fabric.now.switches }
    ensures { option_map (λ (id : Number). id.0) result ≡ terminal_by fabric.now (seen_copy copy) port }
{
    if port == copy.from {
        return None;
    }
    fabric.terminal_at(copy.at, port)
}

/// Appends the copies that a copy gives by the ports of an entry. The error is want of memory.
fn push_copies(
    fabric: &Fabric,
    ports: &[u8],
    copy: PacketCopy,
    pending: &mut Vec<PacketCopy>,
) -> Result<(), AllocError>
    requires { copy.at.0 < length fabric.now.switches }
    ensures { OnOk result (seen_copies pending.new.items ≡ seen_copies pending.old.items ++ filter_map (copy_by fabric.now (seen_copy copy)) ports.now) }
{
    for port in ports {
        if let Some(next) = copy_by(fabric, copy, *port) {
            pending.push(next)?;
        }
    }
    Ok(())
}

/// Marks the terminals that a copy reaches by the ports of an entry.
fn mark_reached(fabric: &Fabric, ports: &[u8], copy: PacketCopy, reached: &mut [bool])
    requires switch { copy.at.0 < length fabric.now.switches }
    requires each { length reached.old ≡ length fabric.now.terminals }
    ensures each { length reached.new ≡ length reached.old }
    ensures marked { (n : ℕ) → is_marked reached.new n ≡ (is_marked reached.old n || list_any (λ m. m == n) (filter_map (terminal_by fabric.now (seen_copy copy)) ports.now)) }
{
    for port in ports {
        if let Some(terminal) = terminal_by(fabric, copy, *port) {
            reached[terminal.0 as usize] = true;
        }
    }
}

/// The marked terminals, ascending. The error is want of memory.
fn marked(alloc: Global, marks: &[bool]) -> Result<Vec<TerminalId>, AllocError>
    requires { length marks.now < 2 ^ 32 }
    ensures { IfOk result (λ found. map (λ (id : Number). id.0) found.items ≡ filter (is_marked marks.now) (range_with_len 0 (length marks.now))) }
{
    let mut found = Vec::new(alloc);
    for n in 0..marks.len() {
        if marks[n] {
            found.push(TerminalId(n as u32))?;
        }
    }
    Ok(found)
}

/// The terminals that a packet of a member reaches, ascending: each other member of its component, and no other
/// terminal. The tables are those of the fabric's groups, and the group is named by its place in their list. The error
/// is want of memory.
pub fn spread(
    alloc: Global,
    fabric: &Fabric,
    tables: &GroupTables,
    index: u32,
    from: TerminalId,
) -> Result<Vec<TerminalId>, AllocError>
    requires planted { ArePlanted fabric.now (map (λ (g : Table). g.members) tables.now) tables.now }
    requires known { All (λ (g : Table). All (λ n. n < length fabric.now.terminals) g.members) tables.now }
    requires index { index < length tables.now }
    requires member { Contains (members_at tables.now index) from.0 }
    ensures reached { IfOk result (λ found. IsSpread fabric.now (entries_at tables.now index) from.0 (map (λ (id : Number). id.0) found.items)) }
    // Each other member connected to it is reached once, and nothing else, by no more copies than switches.
    ensures members { IfOk result (λ _. ReachesMembers fabric.now (members_at tables.now index) (entries_at tables.now index) from.0) }
{
    let row = fabric.terminal(from);
    let first = PacketCopy {
        at: row.switch,
        from: row.port,
    };
    let mut reached = vec![in alloc; false; fabric.terminals() as usize]?;
    let mut pending = vec![in alloc; first]?;
    while let Some(copy) = pending.pop() {
        let ports = tables.ports(index, copy.at);
        mark_reached(fabric, ports, copy, &mut reached);
        push_copies(fabric, ports, copy, &mut pending)?;
    }
    marked(alloc, &reached)
}
