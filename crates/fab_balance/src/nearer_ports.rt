//! The ports by which a shortest route may leave a switch: those whose channel leads to a switch with one hop less
//! to the switch where the route ends. Finding them takes the time of the switch's channels.
ghost use Rattle.std.specs.Prelude.{◌<◌, ◌↔◌, length, IsTrue, IsSomeAnd, OnOk, MatchOption};
ghost use Rattle.fab_model.specs.WellFormed.{IsFabric};
ghost use Rattle.fab_hops.specs.HopCounts.{AreHops, hop_count};
ghost use Rattle.fab_balance.specs.Eligible.{AreNearerPorts, HasNoNearerPort, IsLeastNearerPort};

use fab_hops::Hops;
use fab_model::{ChannelId, Fabric, SwitchId};
use std::alloc::AllocError;

/// Puts the ports of a switch that lead nearer to another switch in place of the list's. There is none where the two
/// are one or not connected. The error is want of memory.
pub(crate) fn find_nearer_ports(
    fabric: &Fabric,
    hops: &Hops,
    s: SwitchId,
    to: SwitchId,
    ports: &mut Vec<u8>,
) -> Result<(), AllocError>
    requires fabric { IsFabric fabric.now }
    requires hops { AreHops fabric.now hops.now }
    requires from { s.0 < length fabric.now.switches }
    requires to { to.0 < length fabric.now.switches }
    ensures { OnOk result (AreNearerPorts fabric.now s.0 to.0 ports.new.items) }
{
    ports.clear();
    let Some(here) = hops.hop(s, to) else {
        return Ok(());
    };
    let (first, past) = fabric.leaves(s);
    for number in first..past {
        let channel = fabric.channel(ChannelId(number));
        if is_nearer(hops, channel.tip, to, here) {
            ports.push(channel.port)?;
        }
    }
    Ok(())
}

/// The least port of a switch that leads nearer to another switch. There is none where the two are one or not
/// connected.
pub(crate) fn least_nearer_port(
    fabric: &Fabric,
    hops: &Hops,
    s: SwitchId,
    to: SwitchId,
) -> Option<u8>
    requires fabric { IsFabric fabric.now }
    requires hops { AreHops fabric.now hops.now }
    requires from { s.0 < length fabric.now.switches }
    requires to { to.0 < length fabric.now.switches }
    ensures { MatchOption result (HasNoNearerPort fabric.now s.0 to.0) (IsLeastNearerPort fabric.now s.0 to.0) }
{
    let here = hops.hop(s, to)?;
    let (first, past) = fabric.leaves(s);
    for number in first..past {
        let channel = fabric.channel(ChannelId(number));
        if is_nearer(hops, channel.tip, to, here) {
            return Some(channel.port);
        }
    }
    None
}

/// Whether a switch has fewer hops to go to another one than this many.
fn is_nearer(hops: &Hops, s: SwitchId, to: SwitchId, hops_here: u16) -> bool
    requires from { s.0 < hops.now.switches }
    requires to { to.0 < hops.now.switches }
    ensures { IsTrue result ↔ IsSomeAnd (hop_count hops.now s.0 to.0) (λ there. there < hops_here) }
{
    hops.hop(s, to).is_some_and(|there| there < hops_here)
}
