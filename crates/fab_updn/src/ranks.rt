//! The ranks of switches: how many hops each is away from the nearest root of its component.
//!
//! The roots are named; a component in which none is named has its centre as root. Finding the ranks of S switches
//! with R roots takes O(S * R) time, and O(n * (S + log n)) for each component of n switches without a named root.
//! It takes 4 bytes for each root and 2 for each switch.
//!
//! Source: OpenSM's document on routing, engine `updn`.
ghost use Rattle.std.specs.Prelude.{◌≡◌, ◌<◌, length, map, All, IfOk, IsSome, MatchOption, None};
ghost use Rattle.fab_graph.specs.Least.{IsLeast};
ghost use Rattle.fab_model.specs.declared.rows.SwitchId.{SwitchId as Switch};
ghost use Rattle.fab_hops.specs.HopCounts.{AreHops, hop_count};
ghost use Rattle.fab_updn.specs.Ranks.{AreRanks};
ghost use Rattle.fab_updn.specs.Found.{AreRoots, IsCountToListed};

use fab_hops::Hops;
use fab_model::{Fabric, SwitchId};
use std::alloc::{AllocError, Global};

/// The ranks of a fabric, indexed by `SwitchId`: the least hop count of each switch to a root of its component. The
/// error is want of memory.
pub(crate) fn ranks_of(
    alloc: Global,
    fabric: &Fabric,
    hops: &Hops,
    named: &[SwitchId],
) -> Result<Vec<u16>, AllocError>
    requires hops { AreHops fabric.now hops.now }
    requires named { All (λ root. root.0 < length fabric.now.switches) named.now }
    ensures { IfOk result (λ ranks. AreRanks fabric.now (map (λ (root : Switch). root.0) named.now) ranks.items) }
{
    let roots = roots_of(alloc, fabric, hops, named)?;
    let mut ranks = Vec::with_capacity(alloc, fabric.switches() as usize)?;
    for index in 0..fabric.switches() {
        let rank = nearest(hops, SwitchId(index), &roots).unwrap();
        ranks.push(rank)?;
    }
    Ok(ranks)
}

/// The named roots, and after them the centre of each component in which none is named.
fn roots_of(
    alloc: Global,
    fabric: &Fabric,
    hops: &Hops,
    named: &[SwitchId],
) -> Result<Vec<SwitchId>, AllocError>
    requires hops { AreHops fabric.now hops.now }
    requires named { All (λ root. root.0 < length fabric.now.switches) named.now }
    ensures { IfOk result (λ roots. AreRoots fabric.now (map (λ (root : Switch). root.0) named.now) roots.items) }
{
    let mut roots = Vec::with_capacity(alloc, named.len())?;
    roots.extend_from_slice(named)?;
    for index in 0..fabric.switches() {
        let s = SwitchId(index);
        if nearest(hops, s, &roots).is_none() {
            let order = hops.centre_order(alloc, s)?;
            roots.push(order[0])?;
        }
    }
    Ok(roots)
}

/// The least hop count from a switch to one of the roots; None where none of them is in its component.
fn nearest(hops: &Hops, s: SwitchId, roots: &[SwitchId]) -> Option<u16>
    requires switch { s.0 < hops.now.switches }
    requires roots { All (λ root. root.0 < hops.now.switches) roots.now }
    ensures { MatchOption result (All (λ root. hop_count hops.now s.0 root.0 ≡ None) roots.now) (λ n. IsLeast (IsCountToListed hops.now roots.now s.0) n) }
{
    let mut least: Option<u16> = None;
    for root in roots {
        if let Some(count) = hops.hop(s, *root) {
            least = Some(match least {
                None => count,
                Some(kept) => kept.min(count),
            });
        }
    }
    least
}
