//! Layered shortest path routing (LASH): DOR's shortest routes, and each pair of different connected switches in the
//! first lane in which its routes both ways close no walk of dependencies with those of the pairs before it.
//!
//! The pairs go by (lower, higher). Time: for each pair that of placing it, which is a step for each hop and lane, and
//! where an arena's order changes, for what it searches; and that of certifying the plan. Memory: a byte for each two
//! switches, that of the plan, and 40 bytes for each different dependency of a lane.
//!
//! Source: Skeie, Lysne and Theiss, "Layered Shortest Path (LASH) Routing in Irregular System Area Networks", 2002;
//! OpenSM's document on routing, engine `lash`; Dally and Seitz.
ghost use Rattle.std.specs.Prelude.{◌≡◌, ◌<◌, ◌≤◌, IfOk, IfErr};
ghost use Rattle.fab_model.specs.WellFormed.{IsFabric};
ghost use Rattle.fab_tables.specs.Certified.{IsCertified};
ghost use Rattle.fab_tables.specs.Fit.{PlanFits, IsTidy};
ghost use Rattle.fab_hops.specs.HopCounts.{AreHops};
ghost use Rattle.fab_lash.specs.Layered.{IsLayeredPlan, IsLayeredFault};

use crate::layered::{LashFault, Layered};
use crate::levels::layer_lanes;
use crate::numbered::numbered_plan;
use crate::pair_layers::place_pairs;
use fab_balance::dor;
use fab_depgraph::{Layers, Steps};
use fab_hops::Hops;
use fab_model::Fabric;
use fab_tables::Components;
use std::alloc::Global;
use std::marker::Brand;
use std::sync::ledger::{Blank, Ledger};

/// The layered plan on so many lanes, and lane by lane the dependencies of its pairs. The error is the first pair that
/// no lane takes, or want of memory.
pub fn lash(alloc: Global, fabric: &Fabric, hops: &Hops, lanes: u8) -> Result<Layered, LashFault>
    requires hops { AreHops fabric.now hops.now }
    requires lanes { (0 < lanes) × (lanes ≤ 15) }
    ensures plan { IfOk result (λ layered. IsLayeredPlan fabric.now lanes layered.plan layered.used) }
    ensures refusal { IfErr result (λ fault. IsLayeredFault fabric.now lanes fault) }
    ensures certified { IfOk result (λ layered. IsCertified fabric.now layered.plan) }
    ensures fits { IfOk result (λ layered. PlanFits fabric.now layered.plan) }
    ensures tidy { IfOk result (λ layered. IsTidy fabric.now layered.plan) }
{
    lash_on::<Brand>(alloc, fabric, hops, lanes, Blank::new(1))
}

/// The same, counting the steps of the arenas in a ledger.
fn lash_on<L: Ledger>(
    alloc: Global,
    fabric: &Fabric,
    hops: &Hops,
    lanes: u8,
    blank: Blank,
) -> Result<Layered, LashFault>
    requires hops { AreHops fabric.now hops.now }
    requires lanes { (0 < lanes) × (lanes ≤ 15) }
    requires name { blank.name ≡ L.name }
    requires parts { blank.parts ≡ L.parts }
    requires some { 0 < blank.parts }
    ensures plan { IfOk result (λ layered. IsLayeredPlan fabric.now lanes layered.plan layered.used) }
    ensures refusal { IfErr result (λ fault. IsLayeredFault fabric.now lanes fault) }
    ensures certified { IfOk result (λ layered. IsCertified fabric.now layered.plan) }
    ensures fits { IfOk result (λ layered. PlanFits fabric.now layered.plan) }
    ensures tidy { IfOk result (λ layered. IsTidy fabric.now layered.plan) }
{
    let tables = dor(alloc, fabric, hops)?;
    let components = Components::of(alloc, fabric)?;
    let mut used = Layers::new(alloc, fabric.channels(), lanes)?;
    let mut steps = Steps::<L>::new(blank);
    let layers = place_pairs(alloc, fabric, &tables, &components, &mut used, &mut steps)?;
    let lanes = layer_lanes(alloc, fabric, &components, &layers, lanes)?;
    Ok(numbered_plan(alloc, fabric, tables, lanes, used)?)
}
