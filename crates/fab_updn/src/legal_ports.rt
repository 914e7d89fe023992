//! The ports by which an up/down route may leave a switch: those that go down to a switch with a down walk shorter by
//! one, and where no down walk leads to the destination, those that go up to a switch of a cost less by one. Finding
//! them takes the time of the switch's channels.
ghost use Rattle.std.specs.Prelude.{◌≡◌, ◌<◌, ◌↔◌, length, ◌+◌, IsTrue, IsSomeAnd, OnOk};
ghost use Rattle.fab_model.specs.WellFormed.{IsFabric};
ghost use Rattle.fab_updn.specs.Found.{AreLegalPorts, IsLegalRow};

use crate::costs::Cost;
use crate::keys::{Direction, goes};
use fab_model::{ChannelId, ChannelRow, Fabric, SwitchId};
use std::alloc::AllocError;

/// Puts the ports of a switch by which a route may leave it, ascending, in place of the list's. The ranks and the costs
/// on the way to the destination are indexed by `SwitchId`. The error is want of memory.
pub(crate) fn find_legal_ports(
    fabric: &Fabric,
    ranks: &[u16],
    costs: &[Cost],
    s: SwitchId,
    ports: &mut Vec<u8>,
) -> Result<(), AllocError>
    requires fabric { IsFabric fabric.now }
    requires ranks { length ranks.now ≡ length fabric.now.switches }
    requires costs { length costs.now ≡ length fabric.now.switches }
    requires switch { s.0 < length fabric.now.switches }
    ensures { OnOk result (AreLegalPorts fabric.now ranks.now costs.now s.0 ports.new.items) }
{
    ports.clear();
    let (first, past) = fabric.leaves(s);
    for number in first..past {
        let channel = fabric.channel(ChannelId(number));
        if is_legal(ranks, costs, channel) {
            ports.push(channel.port)?;
        }
    }
    Ok(())
}

/// Whether a route may take a channel.
fn is_legal(ranks: &[u16], costs: &[Cost], channel: ChannelRow) -> bool
    requires tail { channel.tail.0 < length ranks.now }
    requires tip { channel.tip.0 < length ranks.now }
    requires costs { length costs.now ≡ length ranks.now }
    ensures { IsTrue result ↔ IsLegalRow ranks.now costs.now channel }
{
    let there = costs[channel.tip.0 as usize];
    match costs[channel.tail.0 as usize] {
        Cost::Below(count) => {
            falls_to(count, there.below()) && goes(ranks, channel, Direction::Down)
        }
        Cost::Above(count) => {
            falls_to(count, there.count()) && goes(ranks, channel, Direction::Up)
        }
        Cost::Missing => false,
    }
}

/// Whether the second number is there and less by one.
fn falls_to(count: u16, rest: Option<u16>) -> bool
    ensures { IsTrue result ↔ IsSomeAnd rest (λ n. count ≡ n + 1) }
{
    match rest {
        Some(rest) => u32::from(count) == u32::from(rest) + 1,
        None => false,
    }
}
