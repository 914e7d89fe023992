//! How many terminals' walks along a tree contain each channel.
//!
//! Terminals are summed from the leaves of the tree on: a switch passes on its own and those that came to it once
//! every switch whose channel leads to it has passed on. Each switch does so once. Time: linear in switches and
//! terminals; no memory but two numbers a switch, which are handed in.
ghost use Rattle.std.specs.Prelude.{◌≡◌, ◌≢◌, ℕ, ◌+◌, ◌^◌, ◌<◌, ◌≤◌, ◌⊎◌, All, length, slice_index, sum, MatchOption, Some, None};
ghost use Rattle.fab_model.specs.Topology.{switch_id};
ghost use Rattle.fab_model.specs.WellFormed.{IsFabric};
ghost use Rattle.fab_tables.specs.Trees.{next};
ghost use Rattle.fab_tables.specs.TreeWalks.{IsTree, terminals_through};
ghost use Rattle.fab_sssp.specs.Passing.{terminals_on, leading_to, IsPassing, KeepsTotals, TotalsFit};

use fab_model::{Fabric, SwitchId, TerminalId};
use fab_tables::Tree;
use std::mem;

/// Adds to each channel's weight the number of terminals whose walk along the tree contains it. What the other
/// two lists, switch by switch, held before has no effect.
pub(crate) fn add_terminals(
    fabric: &Fabric,
    tree: &Tree,
    weights: &mut [u64],
    arrived: &mut [u32],
    pending: &mut [u32],
)
    requires tree { IsTree fabric.now tree.now }
    requires weights { length weights.old ≡ length fabric.now.channels }
    requires arrived { length arrived.old ≡ length fabric.now.switches }
    requires pending { length pending.old ≡ length fabric.now.switches }
    requires small { All (λ n. n < 2 ^ 41) weights.old }
    ensures added { (c : ℕ) → c < length fabric.now.channels →
        slice_index weights.new c ≡ slice_index weights.old c + terminals_through fabric.now tree.now c }
    ensures kept { IsFabric fabric.now }
{
    count_terminals(fabric, arrived);
    count_pending(fabric, tree, pending);
    for s in 0..fabric.switches() {
        pass_on(fabric, tree, SwitchId(s), weights, arrived, pending);
    }
}

/// Counts the terminals of each switch.
fn count_terminals(fabric: &Fabric, arrived: &mut [u32])
    requires { length arrived.old ≡ length fabric.now.switches }
    ensures { (s : ℕ) → s < length fabric.now.switches → slice_index arrived.new s ≡ terminals_on fabric.now s }
{
    arrived.fill(0);
    for number in 0..fabric.terminals() {
        arrived[fabric.terminal(TerminalId(number)).switch.0 as usize] += 1;
    }
}

/// Counts for each switch itself and those whose channel leads to it.
fn count_pending(fabric: &Fabric, tree: &Tree, pending: &mut [u32])
    requires tree { IsTree fabric.now tree.now }
    requires switches { length pending.old ≡ length fabric.now.switches }
    ensures { (s : ℕ) → s < length fabric.now.switches → slice_index pending.new s ≡ 1 + leading_to fabric.now tree.now s (length fabric.now.switches) }
{
    pending.fill(1);
    for s in 0..fabric.switches() {
        if let Some(channel) = tree.next(SwitchId(s)) {
            pending[fabric.tip(channel).0 as usize] += 1;
        }
    }
}

/// Lets a switch pass on if it alone is pending, and then those along its walk for which that holds by it.
fn pass_on(
    fabric: &Fabric,
    tree: &Tree,
    from: SwitchId,
    weights: &mut [u64],
    arrived: &mut [u32],
    pending: &mut [u32],
)
    requires fabric { IsFabric fabric.now }
    requires tree { IsTree fabric.now tree.now }
    requires from { from.0 < length fabric.now.switches }
    requires weights { length weights.old ≡ length fabric.now.channels }
    requires passing { IsPassing fabric.now tree.now arrived.old pending.old }
    requires fit { TotalsFit fabric.now tree.now weights.old arrived.old }
    ensures passing { IsPassing fabric.now tree.now arrived.new pending.new }
    ensures totals { KeepsTotals fabric.now tree.now weights.old arrived.old weights.new arrived.new }
    ensures ready { (s : ℕ) → slice_index pending.new s ≡ 1 → (slice_index pending.old s ≡ 1) × (s ≢ from.0) }
{
    let mut at = from;
    while pending[at.0 as usize] == 1 {
        match pass(fabric, tree, at, weights, arrived, pending) {
            Some(to) => at = to,
            None => return,
        }
    }
}

/// Passes on the terminals at a switch that alone is pending along its channel: the switch to which they go.
fn pass(
    fabric: &Fabric,
    tree: &Tree,
    from: SwitchId,
    weights: &mut [u64],
    arrived: &mut [u32],
    pending: &mut [u32],
) -> Option<SwitchId>
    requires fabric { IsFabric fabric.now }
    requires tree { IsTree fabric.now tree.now }
    requires from { from.0 < length fabric.now.switches }
    requires weights { length weights.old ≡ length fabric.now.channels }
    requires passing { IsPassing fabric.now tree.now arrived.old pending.old }
    requires fit { TotalsFit fabric.now tree.now weights.old arrived.old }
    requires alone { slice_index pending.old from.0 ≡ 1 }
    ensures to { MatchOption result (next tree.now from.0 ≡ None) (λ to. to.0 < length fabric.now.switches) }
    ensures passing { IsPassing fabric.now tree.now arrived.new pending.new }
    ensures totals { KeepsTotals fabric.now tree.now weights.old arrived.old weights.new arrived.new }
    ensures ready { (s : ℕ) → slice_index pending.new s ≡ 1 →
        ((slice_index pending.old s ≡ 1) × (s ≢ from.0)) ⊎ (result ≡ Some (switch_id s)) }
    ensures fewer { sum pending.new < sum pending.old }
{
    pending[from.0 as usize] = 0;
    let channel = tree.next(from)?;
    let to = fabric.tip(channel);
    let terminals = mem::take(&mut arrived[from.0 as usize]);
    weights[channel.0 as usize] += u64::from(terminals);
    arrived[to.0 as usize] += terminals;
    pending[to.0 as usize] -= 1;
    Some(to)
}
