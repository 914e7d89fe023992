//! The first connected pair of switches without a route that never goes up after it went down.
//!
//! Looking for it takes constant time for each pair of switches, and no memory.
ghost use Rattle.std.specs.Prelude.{◌≡◌, ℕ, ◌<◌, ◌↔◌, [], length, IsTrue, MatchOption, slice_index_or};
ghost use Rattle.fab_updn.specs.Found.{IsMissingPair, IsFirstMissing, IsFirstMissingFrom};

use crate::cost_table::CostTable;
use crate::costs::Cost;
use fab_hops::Hops;
use fab_model::SwitchId;

/// The first connected pair without a cost, by (from, to). The number is that of the switches.
pub(crate) fn first_missing(
    switches: u32,
    hops: &Hops,
    costs: &CostTable,
) -> Option<(SwitchId, SwitchId)>
    requires hops { hops.now.switches ≡ switches }
    requires costs { length costs.now ≡ switches }
    requires rows { (to : ℕ) → to < switches → length (slice_index_or costs.now to []) ≡ switches }
    ensures { MatchOption result ((from to : ℕ) → from < switches → to < switches → ¬ IsMissingPair hops.now costs.now from to)
        (λ pair. IsFirstMissing hops.now costs.now switches pair.0.0 pair.1.0) }
{
    for from in 0..switches {
        if let Some(to) = first_from(switches, hops, costs, SwitchId(from)) {
            return Some((SwitchId(from), to));
        }
    }
    None
}

/// The first switch to which one is connected and has no cost.
fn first_from(switches: u32, hops: &Hops, costs: &CostTable, from: SwitchId) -> Option<SwitchId>
    requires hops { hops.now.switches ≡ switches }
    requires costs { length costs.now ≡ switches }
    requires from { from.0 < switches }
    requires rows { (to : ℕ) → to < switches → length (slice_index_or costs.now to []) ≡ switches }
    ensures { MatchOption result ((to : ℕ) → to < switches → ¬ IsMissingPair hops.now costs.now from.0 to)
        (λ to. IsFirstMissingFrom hops.now costs.now switches from.0 to.0) }
{
    for to in 0..switches {
        if is_missing(hops, costs, from, SwitchId(to)) {
            return Some(SwitchId(to));
        }
    }
    None
}

/// Whether two switches are connected, and the first has no cost on the way to the second.
fn is_missing(hops: &Hops, costs: &CostTable, from: SwitchId, to: SwitchId) -> bool
    requires from { from.0 < hops.now.switches }
    requires to { to.0 < hops.now.switches }
    requires costs { length costs.now ≡ hops.now.switches }
    requires row { length (slice_index_or costs.now to.0 []) ≡ hops.now.switches }
    ensures { IsTrue result ↔ IsMissingPair hops.now costs.now from.0 to.0 }
{
    hops.hop(from, to).is_some() && costs.to(to)[from.0 as usize] == Cost::Missing
}
