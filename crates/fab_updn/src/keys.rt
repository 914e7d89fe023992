//! The keys of switches, (rank, index), and the order by them. A channel goes up where it leads to a smaller key.
//!
//! Sorting S switches takes O(S * log S) time and 12 bytes for each.
ghost use Rattle.std.specs.Prelude.{◌≡◌, ◌<◌, ◌↔◌, length, map, IsTrue, IfOk};
ghost use Rattle.fab_updn.specs.Ranks.{GoesUp};
ghost use Rattle.fab_updn.specs.Found.{IsKeyOrder, Goes};

use fab_model::{ChannelRow, Fabric, SwitchId};
use std::alloc::{AllocError, Global};

/// Where a channel goes: up, to a smaller key, or down.
#[derive(Clone, Copy, Drop)]
pub(crate) enum Direction {
    Up,
    Down,
}

/// Whether a channel goes in a direction. The ranks are indexed by `SwitchId`.
pub(crate) fn goes(ranks: &[u16], channel: ChannelRow, direction: Direction) -> bool
    requires tail { channel.tail.0 < length ranks.now }
    requires tip { channel.tip.0 < length ranks.now }
    ensures { IsTrue result ↔ Goes direction ranks.now channel }
{
    match direction {
        Direction::Up => goes_up(ranks, channel),
        Direction::Down => !goes_up(ranks, channel),
    }
}

fn goes_up(ranks: &[u16], channel: ChannelRow) -> bool
    requires tail { channel.tail.0 < length ranks.now }
    requires tip { channel.tip.0 < length ranks.now }
    ensures { IsTrue result ↔ GoesUp ranks.now channel }
{
    let tail = ranks[channel.tail.0 as usize];
    let tip = ranks[channel.tip.0 as usize];
    tip < tail || (tip == tail && channel.tip.0 < channel.tail.0)
}

/// All switches by ascending key. The error is want of memory.
pub(crate) fn by_key(
    alloc: Global,
    fabric: &Fabric,
    ranks: &[u16],
) -> Result<Vec<SwitchId>, AllocError>
    requires { length ranks.now ≡ length fabric.now.switches }
    ensures { IfOk result (λ order. IsKeyOrder ranks.now order.items) }
{
    let mut ranked = Vec::with_capacity(alloc, ranks.len())?;
    for index in 0..fabric.switches() {
        ranked.push((ranks[index as usize], SwitchId(index)))?;
    }
    ranked.sort_unstable();
    switches_of(alloc, &ranked)
}

/// The switches of such pairs, in their order.
fn switches_of(alloc: Global, ranked: &[(u16, SwitchId)]) -> Result<Vec<SwitchId>, AllocError>
    ensures { IfOk result (λ switches. switches.items ≡ map (λ pair. pair.1) ranked.now) }
{
    ranked.iter().map(|pair| pair.1).collect(alloc)
}
