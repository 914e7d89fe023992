//! The hop counts from one switch to all others: a breadth-first search.
//!
//! Switches are found in the order of their hop counts. The tips of the channels of each switch are looked at when
//! its turn comes: those that were not found yet are one hop farther. Each channel is looked at once, so a search
//! takes time linear in the switches and channels. The queue has each switch once, in four bytes.
//!
//! Source: E. F. Moore, "The Shortest Path through a Maze", Proceedings of the International Symposium on the
//! Theory of Switching (1959).
ghost use Rattle.std.specs.Prelude.{◌≡◌, ℕ, ◌+◌, ◌<◌, [], length, OnOk};
ghost use Rattle.fab_model.specs.Topology.{first_channel};
ghost use Rattle.fab_model.specs.WellFormed.{IsFabric};
ghost use Rattle.fab_hops.specs.HopCodes.{code_at};
ghost use Rattle.fab_hops.specs.Searching.{IsHopRow, IsLooking, IsQueue, unreached};

use crate::hop_code::NOT_CONNECTED;
use fab_model::{ChannelId, Fabric, SwitchId};
use std::alloc::AllocError;
use std::collections::VecDeque;

/// Writes the hop counts from a switch into a row that has none. The queue is empty before and after.
pub(crate) fn count_hops(
    fabric: &Fabric,
    start: SwitchId,
    row: &mut [u16],
    queue: &mut VecDeque<SwitchId>,
) -> Result<(), AllocError>
    requires fabric { IsFabric fabric.now }
    requires start { start.0 < length fabric.now.switches }
    requires whole { length row.old ≡ length fabric.now.switches }
    requires none { (s : ℕ) → code_at row.old s ≡ 65535 }
    requires empty { queue.old.items ≡ [] }
    ensures row { OnOk result (IsHopRow fabric.now start.0 row.new) }
    ensures empty { OnOk result (queue.new.items ≡ []) }
{
    row[start.0 as usize] = 0;
    queue.push_back(start)?;
    while let Some(switch) = queue.pop_front() {
        let hops = row[switch.0 as usize] + 1;
        reach_tips(fabric, switch, hops, row, queue)?;
    }
    Ok(())
}

/// Gives this hop count to the tips of a switch's channels that have none, and lets them queue.
fn reach_tips(
    fabric: &Fabric,
    switch: SwitchId,
    hops: u16,
    row: &mut [u16],
    queue: &mut VecDeque<SwitchId>,
) -> Result<(), AllocError>
    requires fabric { IsFabric fabric.now }
    requires switch { switch.0 < length fabric.now.switches }
    requires whole { length row.old ≡ length fabric.now.switches }
    requires small { hops < 65535 }
    ensures looked { OnOk result ((from : ℕ) → IsLooking fabric.now from row.old queue.old.items switch hops (first_channel fabric.now switch.0) → IsQueue fabric.now from row.new queue.new.items) }
    ensures fewer { OnOk result (unreached row.new + length queue.new.items ≡ unreached row.old + length queue.old.items) }
{
    let (first, past) = fabric.leaves(switch);
    for channel in first..past {
        let tip = fabric.tip(ChannelId(channel));
        if row[tip.0 as usize] == NOT_CONNECTED {
            row[tip.0 as usize] = hops;
            queue.push_back(tip)?;
        }
    }
    Ok(())
}
