//! Distances to one switch by weighted channels: Dijkstra's search, against the channels.
//!
//! A heap holds the switches that were offered a distance, the nearest first; an offer to a settled switch is passed
//! over. An offer is made only where it is less than those to the same switch before. For S switches and C channels:
//! O((S + C) log C) time and O(S + C) memory.
ghost use Rattle.std.specs.Prelude.{◌≡◌, ℕ, ◌+◌, ◌*◌, ◌<◌, ◌≤◌, ◌↔◌, length, IfOk, IsTrue, IsSomeAnd, OnOk, count_by, is_some};
ghost use Rattle.std.specs.BinaryHeap.{heap_items, heap_len, IsHeap};
ghost use Rattle.fab_model.specs.WellFormed.{IsFabric};
ghost use Rattle.fab_sssp.specs.WeightTables.{weight_of, WeightsFit};
ghost use Rattle.fab_sssp.specs.LeastWeight.{AreDistances};
ghost use Rattle.fab_sssp.specs.Nearing.{nearest_last, weight_limit, IsFound, IsNearing, IsAnyChannel, LeadsElsewhere, AreReached, MakesOffer};

use crate::weights::Weights;
use fab_model::{ChannelId, Fabric, SwitchId};
use std::alloc::{AllocError, Global};
use std::cmp::Reverse;
use std::collections::BinaryHeap;

/// A distance, and the number of the switch that it is offered to.
type Offer = Reverse<(u64, u32)>;

/// From each switch, by its number, the least weight of a walk to one; None exactly where not connected. The error is
/// want of memory.
pub fn distances(
    alloc: Global,
    fabric: &Fabric,
    weights: &Weights,
    to: SwitchId,
) -> Result<Vec<Option<u64>>, AllocError>
    requires made_for { WeightsFit fabric.now weights.now }
    requires to { to.0 < length fabric.now.switches }
    ensures { IfOk result (λ found. AreDistances fabric.now (λ c. weight_of weights.now c) to.0 found.items) }
{
    let switches = fabric.switches() as usize;
    let mut found = vec![in alloc; None; switches]?;
    let mut least = vec![in alloc; None; switches]?;
    let mut offers = BinaryHeap::new(alloc);
    offers.push(Reverse((0, to.0)))?;
    while let Some(Reverse((distance, switch))) = offers.pop() {
        if found[switch as usize].is_some() {
            continue;
        }
        found[switch as usize] = Some(distance);
        offer(
            fabric,
            weights,
            SwitchId(switch),
            distance,
            &found,
            &mut least,
            &mut offers,
        )?;
    }
    Ok(found)
}

/// Offers distances by way of a switch that was just settled to those whose channels lead to it. Each switch's least
/// offer so far is kept.
fn offer(
    fabric: &Fabric,
    weights: &Weights,
    settled: SwitchId,
    distance: u64,
    found: &[Option<u64>],
    least: &mut [Option<u64>],
    offers: &mut BinaryHeap<Offer>,
) -> Result<(), AllocError>
    requires fabric { IsFabric fabric.now }
    requires made_for { WeightsFit fabric.now weights.now }
    requires found { length found.now ≡ length fabric.now.switches }
    requires settled { IsFound found.now settled.0 distance }
    requires farthest { (s n : ℕ) → IsFound found.now s n → n ≤ distance }
    requires small { distance + weight_limit ≤ count_by is_some found.now * weight_limit }
    requires reached { AreReached fabric.now found.now (heap_items offers.old) least.old }
    requires heap { IsHeap nearest_last (heap_items offers.old) }
    ensures heap { OnOk result (IsHeap nearest_last (heap_items offers.new)) }
    ensures few { OnOk result (heap_len offers.new ≤ heap_len offers.old + length fabric.now.channels) }
    ensures reached { OnOk result (AreReached fabric.now found.now (heap_items offers.new) least.new) }
    ensures offered { OnOk result ((to : ℕ) →
        IsNearing fabric.now (λ c. weight_of weights.now c) to found.now (heap_items offers.old) (LeadsElsewhere fabric.now settled.0) →
        IsNearing fabric.now (λ c. weight_of weights.now c) to found.now (heap_items offers.new) IsAnyChannel) }
{
    let (first, past) = fabric.leaves(settled);
    for leaving in first..past {
        let from = fabric.tip(ChannelId(leaving));
        if found[from.0 as usize].is_none() {
            let channel = fabric.reverse(ChannelId(leaving));
            offer_to(from, weights.of(channel) + distance, least, offers)?;
        }
    }
    Ok(())
}

/// Offers a switch a distance, if it was offered none before or only greater ones.
fn offer_to(
    s: SwitchId,
    distance: u64,
    least: &mut [Option<u64>],
    offers: &mut BinaryHeap<Offer>,
) -> Result<(), AllocError>
    requires s { s.0 < length least.old }
    requires heap { IsHeap nearest_last (heap_items offers.old) }
    ensures heap { OnOk result (IsHeap nearest_last (heap_items offers.new)) }
    ensures few { OnOk result (heap_len offers.new ≤ heap_len offers.old + 1) }
    ensures offer { OnOk result (MakesOffer distance s.0 (heap_items offers.old) least.old (heap_items offers.new) least.new) }
{
    if is_offered(distance, least[s.0 as usize]) {
        return Ok(());
    }
    least[s.0 as usize] = Some(distance);
    offers.push(Reverse((distance, s.0)))?;
    Ok(())
}

/// Whether no more than a distance was offered before.
fn is_offered(distance: u64, least: Option<u64>) -> bool
    ensures { IsTrue result ↔ IsSomeAnd least (λ n. n ≤ distance) }
{
    least.is_some_and(|kept| kept <= distance)
}
