//! The entries of switches in a group's tree.
//!
//! The entry of a switch has the ports of the members' terminals there, and the ports of the cables of the tree; it is
//! `group_ports` in `specs/GroupTrees.antt`. A cable is in the tree where one of its channels is the next one on a
//! marked way. Cost: for each marked switch a step for each of its ports, in which a member is sought in logarithmic
//! time; a constant for each other switch. Memory: the entries.
ghost use Rattle.std.specs.Prelude.{◌≡◌, ◌<◌, ◌==◌, ℕ, List, length, map, IfOk};
ghost use Rattle.std.specs.List.{list_any};
ghost use Rattle.std.specs.List.Sorted.{IsStrictlyIncreasing};
ghost use Rattle.fab_model.specs.declared.rows.TerminalId.{TerminalId as Number};
ghost use Rattle.fab_model.specs.WellFormed.{IsFabric};
ghost use Rattle.fab_escape.specs.Trees.{IsEscapeForest};
ghost use Rattle.fab_mcast.specs.GroupTrees.{is_member_port, is_tree_port, group_ports};
ghost use Rattle.fab_mcast.specs.Ways.{IsMarkedTree, FitsForest, leads_by};

use crate::ways::MarkedTree;
use fab_escape::Escape;
use fab_model::{ChannelId, Fabric, SwitchId, TerminalId};
use std::alloc::{AllocError, Global};

/// Whether a terminal is one of these, which stand in ascending order.
fn contains(members: &[TerminalId], terminal: TerminalId) -> bool
    requires { IsStrictlyIncreasing (map (λ (id : Number). id.0) members.now) }
    ensures { result ≡ list_any (λ one. one == terminal.0) (map (λ (id : Number). id.0) members.now) }
{
    match members.binary_search_by_key(&terminal.0, |member| member.0) {
        Ok(_) => true,
        Err(_) => false,
    }
}

/// Whether a member's terminal is cabled to a switch's port. Members stand in ascending order.
fn is_member_port(fabric: &Fabric, members: &[TerminalId], s: SwitchId, port: u8) -> bool
    requires fabric { IsFabric fabric.now }
    requires switch { s.0 < length fabric.now.switches }
    requires ascending { IsStrictlyIncreasing (map (λ (id : Number). id.0) members.now) }
    ensures { result ≡ is_member_port fabric.now (map (λ (id : Number). id.0) members.now) s.0 port }
{
    match fabric.terminal_at(s, port) {
        Some(terminal) => contains(members, terminal),
        None => false,
    }
}

impl MarkedTree {
    /// Whether the marked way from a switch goes on by a channel.
    fn leads_by(&self, escape: &Escape, s: SwitchId, channel: ChannelId) -> bool
        requires switch { s.0 < length escape.now.roots }
        requires fits { FitsForest escape.now self.now.homes.items self.now.passed.items }
        ensures { result ≡ leads_by escape.now self.now.homes.items self.now.passed.items s.0 channel.0 }
    {
        if !self.passed[s.0 as usize] {
            return false;
        }
        match self.homes[escape.root(s).0 as usize] {
            Some(home) => match escape.next(s, SwitchId(home)) {
                Some(next) => next.0 == channel.0,
                None => false,
            },
            None => false,
        }
    }

    /// Whether a cable of the tree is plugged in at a switch's port.
    fn is_tree_port(&self, fabric: &Fabric, escape: &Escape, s: SwitchId, port: u8) -> bool
        requires fabric { IsFabric fabric.now }
        requires forest { IsEscapeForest fabric.now 0 escape.now }
        requires fits { FitsForest escape.now self.now.homes.items self.now.passed.items }
        requires switch { s.0 < length fabric.now.switches }
        ensures { (members : List ℕ) → IsMarkedTree fabric.now escape.now members self.now.homes.items self.now.passed.items →
            result ≡ is_tree_port fabric.now escape.now members s.0 port }
    {
        match fabric.channel_at(s, port) {
            Some(channel) => {
                self.leads_by(escape, s, channel)
                    || self.leads_by(escape, fabric.tip(channel), fabric.reverse(channel))
            }
            None => false,
        }
    }

    /// The entry of a switch: the ports of the group's tree there, ascending. The error is want of memory.
    pub(crate) fn ports(
        &self,
        alloc: Global,
        fabric: &Fabric,
        escape: &Escape,
        members: &[TerminalId],
        s: SwitchId,
    ) -> Result<Vec<u8>, AllocError>
        requires fabric { IsFabric fabric.now }
        requires forest { IsEscapeForest fabric.now 0 escape.now }
        requires marked { IsMarkedTree fabric.now escape.now (map (λ (id : Number). id.0) members.now) self.now.homes.items self.now.passed.items }
        requires ascending { IsStrictlyIncreasing (map (λ (id : Number). id.0) members.now) }
        requires switch { s.0 < length fabric.now.switches }
        ensures { IfOk result (λ ports. ports.items ≡ group_ports fabric.now escape.now (map (λ (id : Number). id.0) members.now) s.0) }
    {
        let mut ports = Vec::new(alloc);
        if !self.passed[s.0 as usize] {
            return Ok(ports);
        }
        let past = fabric.switch(s).ports + 1;
        for port in 1..past {
            let of_member = is_member_port(fabric, members, s, port);
            if of_member || self.is_tree_port(fabric, escape, s, port) {
                ports.push(port)?;
            }
        }
        Ok(ports)
    }
}
