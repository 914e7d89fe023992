//! Nue routing: LIDs of an old plan that can stay are kept, and the others are laid one after the other, each in its home
//! lane by a guarded search, with an escape tree to fall back on.
//!
//! Time: as many additions to the arenas as LIDs and switches, and a search for each LID that is laid. Memory: that of
//! the plan, and 40 bytes for each LID and switch.
//!
//! Source: Domke, Hoefler and Matsuoka, "Routing on the Dependency Graph".
ghost use Rattle.std.specs.Prelude.{◌≡◌, ◌*◌, ◌^◌, ◌<◌, ◌≤◌, length, IfOk, OnOk, IfSome, option_copied};
ghost use Rattle.fab_model.specs.WellFormed.{IsFabric};
ghost use Rattle.fab_tables.specs.FixedEntries.{HasFixedEntries};
ghost use Rattle.fab_sssp.specs.WeightTables.{start_weights};
ghost use Rattle.fab_nue.specs.Arenas.{channel_counts, HaveChannels, AreListing, AreShort};
ghost use Rattle.fab_nue.specs.Forests.{AreForests, forest_in};
ghost use Rattle.fab_nue.specs.LidsKept.{KeepsLids};
ghost use Rattle.fab_tables.specs.Certified.{IsCertified};
ghost use Rattle.fab_tables.specs.Fit.{PlanFits, IsTidy};
ghost use Rattle.fab_hops.specs.HopCounts.{AreHops};
ghost use Rattle.fab_nue.specs.Kept.{HasSwitchesAndLids};
ghost use Rattle.fab_nue.specs.NuePlan.{DependsToEscapeIn, IsNueLayout};
ghost use Rattle.fab_nue.specs.Unleveled.{IsWithoutLevels};
ghost use Rattle.fab_nue.specs.Laws.{KeepsItself};

use crate::arenas::add_escapes;
use crate::forests::forests_of;
use crate::kept_lids::keep_lids;
use crate::laid::Laid;
use crate::laid_lids::lay_lids;
use crate::levels::nue_lanes;
use crate::lid_list::LidList;
use crate::numbered::numbered_plan;
use fab_balance::with_fixed_entries;
use fab_depgraph::{Layers, Steps};
use fab_escape::Escape;
use fab_hops::Hops;
use fab_model::Fabric;
use fab_sssp::Weights;
use fab_tables::{Components, Plan, Tables};
use std::alloc::{AllocError, Global};
use std::marker::Brand;
use std::sync::ledger::{Blank, Ledger};

/// The plan of Nue on so many lanes. It refuses no fabric. Of an old plan it keeps each LID that can stay. The error is
/// want of memory.
pub fn nue(
    alloc: Global,
    fabric: &Fabric,
    hops: &Hops,
    lanes: u8,
    kept: Option<&Plan>,
) -> Result<Laid, AllocError>
    requires hops { AreHops fabric.now hops.now }
    requires lanes { (0 < lanes) × (lanes ≤ 15) }
    requires kept { IfSome kept (λ old. HasSwitchesAndLids fabric.now old.now) }
    ensures plan { IfOk result (λ laid. IsNueLayout fabric.now lanes (option_copied kept.entry) laid.kept laid.plan laid.used) }
    ensures certified { IfOk result (λ laid. IsCertified fabric.now laid.plan) }
    ensures fits { IfOk result (λ laid. PlanFits fabric.now laid.plan) }
    ensures tidy { IfOk result (λ laid. IsTidy fabric.now laid.plan) }
    // A plan of this call, at the same fabric and lane count, is kept as a whole.
    ensures itself { IfOk result (λ laid. KeepsItself fabric.now lanes (option_copied kept.entry) laid.kept laid.plan) }
{
    nue_on::<Brand>(alloc, fabric, hops, lanes, kept, Blank::new(1))
}

/// The same, counting the steps of the arenas in a ledger.
fn nue_on<L: Ledger>(
    alloc: Global,
    fabric: &Fabric,
    hops: &Hops,
    lanes: u8,
    old: Option<&Plan>,
    blank: Blank,
) -> Result<Laid, AllocError>
    requires hops { AreHops fabric.now hops.now }
    requires lanes { (0 < lanes) × (lanes ≤ 15) }
    requires old { IfSome old (λ plan. HasSwitchesAndLids fabric.now plan.now) }
    requires name { blank.name ≡ L.name }
    requires parts { blank.parts ≡ L.parts }
    requires some { 0 < blank.parts }
    ensures plan { IfOk result (λ laid. IsNueLayout fabric.now lanes (option_copied old.entry) laid.kept laid.plan laid.used) }
    ensures certified { IfOk result (λ laid. IsCertified fabric.now laid.plan) }
    ensures fits { IfOk result (λ laid. PlanFits fabric.now laid.plan) }
    ensures tidy { IfOk result (λ laid. IsTidy fabric.now laid.plan) }
    ensures itself { IfOk result (λ laid. KeepsItself fabric.now lanes (option_copied old.entry) laid.kept laid.plan) }
{
    let components = Components::of(alloc, fabric)?;
    let forests = forests_of(alloc, fabric, hops, lanes)?;
    let mut steps = Steps::<L>::new(blank);
    let mut used = begin_lanes(alloc, fabric, &forests, lanes, &mut steps)?;
    let mut tables = with_fixed_entries(alloc, fabric)?;
    let kept = lay_all(
        alloc,
        fabric,
        &components,
        &forests,
        old,
        &mut used,
        &mut tables,
        &mut steps,
    )?;
    with_levels(alloc, fabric, &components, old, lanes, tables, kept, used)
}

/// For each lane an arena with its escape dependencies. The error is want of memory.
fn begin_lanes<L: Ledger>(
    alloc: Global,
    fabric: &Fabric,
    forests: &[Escape],
    lanes: u8,
    steps: &mut Steps<L>,
) -> Result<Layers, AllocError>
    requires lanes { (0 < lanes) × (lanes ≤ 15) }
    requires forests { AreForests fabric.now lanes forests.now }
    ensures fabric { IfOk result (λ used. IsFabric fabric.now) }
    ensures lanes { IfOk result (λ used. length used ≡ lanes) }
    ensures channels { IfOk result (λ used. HaveChannels fabric.now used) }
    ensures short { IfOk result (λ used. AreShort (length fabric.now.switches * length fabric.now.switches) used) }
    ensures listed { IfOk result (λ used. AreListing lanes (λ on_lane c d. DependsToEscapeIn fabric.now lanes (λ lane. forest_in forests.now lane) on_lane c d) used) }
{
    let mut used = Layers::new(alloc, fabric.channels(), lanes)?;
    add_escapes(alloc, fabric, forests, &mut used, steps)?;
    Ok(used)
}

/// Keeps of the old plan each LID that can stay, and lays the others. The error is want of memory.
fn lay_all<L: Ledger>(
    alloc: Global,
    fabric: &Fabric,
    components: &Components,
    forests: &[Escape],
    old: Option<&Plan>,
    used: &mut Layers,
    tables: &mut Tables,
    steps: &mut Steps<L>,
) -> Result<LidList, AllocError>
    requires fabric { IsFabric fabric.now }
    requires components { components.now ≡ fabric.now }
    requires forests { AreForests fabric.now (length used.old) forests.now }
    requires old { IfSome old (λ plan. HasSwitchesAndLids fabric.now plan.now) }
    requires lanes { (0 < length used.old) × (length used.old ≤ 15) }
    requires channels { HaveChannels fabric.now used.old }
    requires short { AreShort (length fabric.now.switches * length fabric.now.switches) used.old }
    requires listed { AreListing (length used.old) (λ on_lane c d. DependsToEscapeIn fabric.now (length used.old) (λ lane. forest_in forests.now lane) on_lane c d) used.old }
    requires tables { HasFixedEntries fabric.now tables.old }
    ensures { IfOk result (λ kept. IsWithoutLevels fabric.now (length used.old) (option_copied old.entry) kept tables.new used.new) }
{
    let weights = &mut Weights::new(alloc, fabric)?;
    let kept = keep_old(alloc, fabric, components, old, used, tables, weights, steps)?;
    lay_lids(alloc, fabric, forests, &kept, used, tables, weights, steps)?;
    Ok(kept)
}

/// The plan of what is laid, with its levels and numbers. The error is want of memory.
fn with_levels(
    alloc: Global,
    fabric: &Fabric,
    components: &Components,
    old: Option<&Plan>,
    lanes: u8,
    tables: Tables,
    kept: LidList,
    used: Layers,
) -> Result<Laid, AllocError>
    requires fabric { IsFabric fabric.now }
    requires components { components.now ≡ fabric.now }
    requires old { IfSome old (λ plan. HasSwitchesAndLids fabric.now plan.now) }
    requires lanes { (0 < lanes) × (lanes ≤ 15) }
    requires laid { IsWithoutLevels fabric.now lanes (option_copied old) kept tables used }
    ensures plan { IfOk result (λ laid. IsNueLayout fabric.now lanes (option_copied old.entry) laid.kept laid.plan laid.used) }
    ensures certified { IfOk result (λ laid. IsCertified fabric.now laid.plan) }
    ensures fits { IfOk result (λ laid. PlanFits fabric.now laid.plan) }
    ensures tidy { IfOk result (λ laid. IsTidy fabric.now laid.plan) }
    ensures itself { IfOk result (λ laid. KeepsItself fabric.now lanes (option_copied old.entry) laid.kept laid.plan) }
{
    let levels = nue_lanes(alloc, fabric, components, old, &kept, lanes)?;
    numbered_plan(alloc, fabric, tables, levels, kept, used)
}

/// Keeps of the old plan, if there is one, each LID that can stay. The error is want of memory.
fn keep_old<L: Ledger>(
    alloc: Global,
    fabric: &Fabric,
    components: &Components,
    old: Option<&Plan>,
    used: &mut Layers,
    tables: &mut Tables,
    weights: &mut Weights,
    steps: &mut Steps<L>,
) -> Result<LidList, AllocError>
    requires fabric { IsFabric fabric.now }
    requires components { components.now ≡ fabric.now }
    requires old { IfSome old (λ plan. HasSwitchesAndLids fabric.now plan.now) }
    requires lanes { length used.old ≤ 15 }
    requires channels { HaveChannels fabric.now used.old }
    requires short { AreShort (length fabric.now.switches * length fabric.now.switches) used.old }
    requires tables { HasFixedEntries fabric.now tables.old }
    requires weights { weights.old ≡ start_weights fabric.now }
    ensures kept { IfOk result (λ kept. KeepsLids fabric.now (length used.old) (option_copied old.entry) kept used.old tables.new weights.new used.new) }
    ensures short { OnOk result (AreShort (2 ^ 31) used.new) }
    ensures channels { OnOk result (channel_counts used.new ≡ channel_counts used.old) }
{
    match old {
        Some(plan) => keep_lids(
            alloc, fabric, components, plan, used, tables, weights, steps,
        ),
        None => Ok(LidList::new(alloc)),
    }
}
