//! The tables of groups.
//!
//! For each group the switches have entries: the ports to which a packet of the group is sent. They are those of the
//! group's tree (see `ways` and `entries`). For G groups and S switches they take 24 bytes for each of G * S entries,
//! and the ports.
ghost use Rattle.std.specs.Prelude.{◌≡◌, ◌<◌, length, map, slice_get, Some, IfOk, All};
ghost use Rattle.fab_hops.specs.HopCounts.{AreHops};
ghost use Rattle.fab_mcast.specs.GroupList.{Group as Row};
ghost use Rattle.std.specs.List.Sorted.{IsStrictlyIncreasing};
ghost use Rattle.fab_model.specs.declared.rows.TerminalId.{TerminalId as Number};
ghost use Rattle.fab_escape.specs.Trees.{IsEscapeForest};
ghost use Rattle.fab_mcast.specs.GroupTrees.{Planted as Table, planted, ArePlanted, entries_at};
ghost use Rattle.fab_mcast.specs.Tables.{seen_planted};

use crate::groups::Groups;
use crate::ways::mark_ways;
use fab_escape::Escape;
use fab_hops::Hops;
use fab_model::{Fabric, SwitchId, TerminalId};
use std::alloc::{AllocError, Global};
use std::marker::Model;

/// A group's members, and its entries by switch.
#[derive(Drop)]
struct Planted {
    members: Vec<TerminalId>,
    ports: Vec<Vec<u8>>,
}

/// For each group and each switch the ports to which a packet of the group is sent.
#[derive(Drop)]
pub struct GroupTables {
    list: Vec<Planted>,
}

impl Model for GroupTables {
    ghost use Rattle.std.specs.Prelude.{List, map};
    ghost use Rattle.fab_mcast.specs.GroupTrees.{Planted};
    ghost use Rattle.fab_mcast.specs.Tables.{seen_planted};

    ghost Value = { List Planted };

    ghost view = { λ g. map seen_planted g.list.items };
}

/// The tables of groups: for each the entries of its trees, which lie in the escape trees of lane 0. The error is want
/// of memory. Time: that of making the escape trees, and for each group that of its trees (see `ways` and `entries`).
pub fn plant(
    alloc: Global,
    fabric: &Fabric,
    hops: &Hops,
    groups: &Groups,
) -> Result<GroupTables, AllocError>
    requires hops { AreHops fabric.now hops.now }
    requires known { All (λ (g : Row). All (λ n. n < length fabric.now.terminals) g.members) groups.now }
    ensures planted { IfOk result (λ tables. ArePlanted fabric.now (map (λ (g : Row). g.members) groups.now) tables) }
    // Each switch has an entry in each group's table.
    ensures each_switch { IfOk result (λ tables. All (λ (g : Table). length g.ports ≡ length fabric.now.switches) tables) }
{
    let escape = Escape::of(alloc, fabric, hops, 0)?;
    let mut list = Vec::new(alloc);
    for index in 0..groups.count() {
        list.push(plant_group(alloc, fabric, &escape, groups.members(index))?)?;
    }
    Ok(GroupTables { list })
}

/// The table of a group. The error is want of memory.
fn plant_group(
    alloc: Global,
    fabric: &Fabric,
    escape: &Escape,
    members: &[TerminalId],
) -> Result<Planted, AllocError>
    requires forest { IsEscapeForest fabric.now 0 escape.now }
    requires known { All (λ n. n < length fabric.now.terminals) (map (λ (id : Number). id.0) members.now) }
    requires ascending { IsStrictlyIncreasing (map (λ (id : Number). id.0) members.now) }
    ensures { IfOk result (λ kept. seen_planted kept ≡ planted fabric.now escape.now (map (λ (id : Number). id.0) members.now)) }
{
    let tree = mark_ways(alloc, fabric, escape, members)?;
    let mut ports = Vec::with_capacity(alloc, fabric.switches() as usize)?;
    for s in 0..fabric.switches() {
        ports.push(tree.ports(alloc, fabric, escape, members, SwitchId(s))?)?;
    }
    Ok(Planted {
        members: Vec::from_slice(alloc, members)?,
        ports,
    })
}

impl GroupTables {
    /// The ports of a switch's entry for a group, ascending; none where it has no entry. Constant time, no memory.
    pub fn ports(&self, index: u32, s: SwitchId) -> &[u8]
        requires index { index < length self.now }
        requires switch { s.0 < length (entries_at self.now index) }
        ensures { slice_get (entries_at self.now index) s.0 ≡ Some result.now }
    {
        self.list[index as usize].ports[s.0 as usize].as_slice()
    }
}
