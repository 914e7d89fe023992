//! What it costs to go to a switch by a route that never goes up after it went down.
//!
//! Where walks lead there that go down all the way, the cost is the length of the shortest. Elsewhere channels go up
//! first, and the cost is one more than the least cost of a switch to which a channel goes up. Keys rise along
//! channels that go down, and fall along those that go up: so the lengths of down walks are found by descending key,
//! and after them the other costs by ascending key, each from those of the switch's neighbours.
//!
//! For each destination every channel is looked at twice, so for S switches and C channels a destination takes
//! O(S + C) time; the costs take 4 bytes for each switch.
//!
//! Source: OpenSM's document on routing, engine `updn`.
ghost use Rattle.std.specs.Prelude.{◌≡◌, ℕ, ◌+◌, ◌<◌, length, IfOk, MatchOption};
ghost use Rattle.fab_graph.specs.Least.{IsLeast};
ghost use Rattle.fab_model.specs.WellFormed.{IsFabric};
ghost use Rattle.fab_updn.specs.Found.{Goes, IsKeyOrder, AreCostsTo, AreDowns, AreSmall, IsCountBeyond, IsNextBelow, IsNextAbove, below_of, count_of, cost_at};

use crate::keys::{Direction, goes};
use fab_model::{ChannelId, ChannelRow, Fabric, SwitchId};
use std::alloc::{AllocError, Global};

/// The cost of a switch on the way to a destination.
#[derive(Clone, Copy, PartialEq, Eq, Drop)]
pub(crate) enum Cost {
    /// Walks go down all the way, the shortest by so many channels.
    Below(u16),
    /// None does; channels go up first.
    Above(u16),
    /// No walk goes up and then down.
    Missing,
}

impl Cost {
    /// The length of the shortest walk that goes down all the way.
    pub(crate) fn below(self) -> Option<u16>
        ensures { result ≡ below_of self }
    {
        match self {
            Cost::Below(count) => Some(count),
            Cost::Above(_) | Cost::Missing => None,
        }
    }

    /// The number of the cost.
    pub(crate) fn count(self) -> Option<u16>
        ensures { result ≡ count_of self }
    {
        match self {
            Cost::Below(count) | Cost::Above(count) => Some(count),
            Cost::Missing => None,
        }
    }
}

/// The costs of all switches on the way to one, indexed by `SwitchId`. The order is that of the keys. The error is want
/// of memory.
pub(crate) fn costs_to(
    alloc: Global,
    fabric: &Fabric,
    ranks: &[u16],
    order: &[SwitchId],
    to: SwitchId,
) -> Result<Vec<Cost>, AllocError>
    requires fabric { IsFabric fabric.now }
    requires ranks { length ranks.now ≡ length fabric.now.switches }
    requires order { IsKeyOrder ranks.now order.now }
    requires to { to.0 < length fabric.now.switches }
    ensures { IfOk result (λ costs. AreCostsTo fabric.now ranks.now to.0 costs.items) }
{
    let mut costs = vec![in alloc; Cost::Missing; fabric.switches() as usize]?;
    count_below(fabric, ranks, order, to, &mut costs);
    count_above(fabric, ranks, order, &mut costs);
    Ok(costs)
}

/// Writes the lengths of the shortest down walks, by descending key.
fn count_below(fabric: &Fabric, ranks: &[u16], order: &[SwitchId], to: SwitchId, costs: &mut [Cost])
    requires fabric { IsFabric fabric.now }
    requires ranks { length ranks.now ≡ length fabric.now.switches }
    requires order { IsKeyOrder ranks.now order.now }
    requires to { to.0 < length fabric.now.switches }
    requires whole { length costs.old ≡ length fabric.now.switches }
    requires none { (s : ℕ) → cost_at costs.old s ≡ Cost.Missing }
    ensures downs { AreDowns fabric.now ranks.now to.0 costs.new }
    ensures small { AreSmall costs.new (length fabric.now.switches + 1) }
{
    for s in order.iter().rev() {
        costs[s.0 as usize] = cost_below(fabric, ranks, costs, *s, to);
    }
}

/// Writes the costs of the switches from which no down walk leads there, by ascending key.
fn count_above(fabric: &Fabric, ranks: &[u16], order: &[SwitchId], costs: &mut [Cost])
    requires fabric { IsFabric fabric.now }
    requires ranks { length ranks.now ≡ length fabric.now.switches }
    requires order { IsKeyOrder ranks.now order.now }
    requires whole { length costs.old ≡ length fabric.now.switches }
    requires small { AreSmall costs.old (length fabric.now.switches + 1) }
    ensures { (to : ℕ) → AreDowns fabric.now ranks.now to costs.old → AreCostsTo fabric.now ranks.now to costs.new }
{
    for s in order {
        costs[s.0 as usize] = cost_above(fabric, ranks, costs, *s);
    }
}

/// The cost of a switch by those of the switches to which its channels go down.
fn cost_below(fabric: &Fabric, ranks: &[u16], costs: &[Cost], s: SwitchId, to: SwitchId) -> Cost
    requires fabric { IsFabric fabric.now }
    requires ranks { length ranks.now ≡ length fabric.now.switches }
    requires costs { length costs.now ≡ length fabric.now.switches }
    requires switch { s.0 < length fabric.now.switches }
    requires small { AreSmall costs.now 65535 }
    ensures { IsNextBelow fabric.now ranks.now costs.now to.0 s.0 result }
{
    if s == to {
        return Cost::Below(0);
    }
    match least_beyond(fabric, ranks, costs, s, Direction::Down) {
        Some(count) => Cost::Below(count + 1),
        None => Cost::Missing,
    }
}

/// The cost of a switch that has none, by those of the switches to which its channels go up.
fn cost_above(fabric: &Fabric, ranks: &[u16], costs: &[Cost], s: SwitchId) -> Cost
    requires fabric { IsFabric fabric.now }
    requires ranks { length ranks.now ≡ length fabric.now.switches }
    requires costs { length costs.now ≡ length fabric.now.switches }
    requires switch { s.0 < length fabric.now.switches }
    requires small { AreSmall costs.now 65535 }
    ensures { IsNextAbove fabric.now ranks.now costs.now s.0 (cost_at costs.now s.0) result }
{
    let kept = costs[s.0 as usize];
    if kept != Cost::Missing {
        return kept;
    }
    match least_beyond(fabric, ranks, costs, s, Direction::Up) {
        Some(count) => Cost::Above(count + 1),
        None => Cost::Missing,
    }
}

/// The least cost of a switch to which a channel goes in this direction; None where none has a cost.
fn least_beyond(
    fabric: &Fabric,
    ranks: &[u16],
    costs: &[Cost],
    s: SwitchId,
    direction: Direction,
) -> Option<u16>
    requires fabric { IsFabric fabric.now }
    requires ranks { length ranks.now ≡ length fabric.now.switches }
    requires costs { length costs.now ≡ length fabric.now.switches }
    requires switch { s.0 < length fabric.now.switches }
    ensures { MatchOption result ((n : ℕ) → ¬ IsCountBeyond fabric.now ranks.now costs.now direction s.0 n) (λ n. IsLeast (IsCountBeyond fabric.now ranks.now costs.now direction s.0) n) }
{
    let mut least: Option<u16> = None;
    let (first, past) = fabric.leaves(s);
    for number in first..past {
        let channel = fabric.channel(ChannelId(number));
        if let Some(count) = count_beyond(ranks, costs, channel, direction) {
            least = Some(match least {
                None => count,
                Some(kept) => kept.min(count),
            });
        }
    }
    least
}

/// The cost of the switch to which a channel leads; None where it has none, or where the channel goes otherwise.
fn count_beyond(
    ranks: &[u16],
    costs: &[Cost],
    channel: ChannelRow,
    direction: Direction,
) -> Option<u16>
    requires tail { channel.tail.0 < length ranks.now }
    requires tip { channel.tip.0 < length ranks.now }
    requires costs { length costs.now ≡ length ranks.now }
    ensures { MatchOption result ((n : ℕ) → Goes direction ranks.now channel → ¬ (count_of (cost_at costs.now channel.tip.0) ≡ Some n))
        (λ n. Goes direction ranks.now channel × (count_of (cost_at costs.now channel.tip.0) ≡ Some n)) }
{
    if goes(ranks, channel, direction) {
        costs[channel.tip.0 as usize].count()
    } else {
        None
    }
}
