//! Up/down routing: a route that went down doesn't go up again, so no packets wait for each other in a ring.
//!
//! Each switch has a rank, the hops to the nearest root of its component. A channel goes up where it leads to a smaller
//! (rank, index), otherwise down; routes go up first, then down. Where a switch cannot be reached so from another one
//! connected to it, there is no plan.
//!
//! For S switches, C channels and L LIDs it takes O(S * (S + C) + L * C) time, and 4 bytes for each pair of switches beside
//! the tables.
//! Source: OpenSM's document on routing, engine `updn`.
ghost use Rattle.std.specs.Prelude.{◌≡◌, ◌<◌, length, map, All, IfOk, IfErr};
ghost use Rattle.fab_model.specs.declared.rows.SwitchId.{SwitchId as Switch};
ghost use Rattle.fab_model.specs.WellFormed.{IsFabric};
ghost use Rattle.fab_hops.specs.HopCounts.{AreHops};
ghost use Rattle.fab_updn.specs.UpDownPlans.{AreLegalTables, IsUpDownPlan, IsUpDownFault};
ghost use Rattle.fab_tables.specs.Fit.{PlanFits, IsTidy};
ghost use Rattle.fab_tables.specs.Certified.{IsCertified};

use crate::cost_table::CostTable;
use crate::first_pair::first_missing;
use crate::ranks::ranks_of;
use crate::tables::up_down_tables;
use fab_certify::{Certified, certify};
use fab_hops::Hops;
use fab_model::{Fabric, SwitchId};
use fab_tables::{Plan, Tables};
use std::alloc::{AllocError, Global};
use thiserror::Error;

/// Why there is no up/down plan.
#[derive(Debug, Drop, Error)]
pub enum UpdnFault {
    /// The first connected pair of switches, by (from, to), without a route that never goes up after it went down.
    #[error("no legal route from switch {} to switch {}", from.0, to.0)]
    NoLegalRoute { from: SwitchId, to: SwitchId },
    #[error("out of memory")]
    Memory(AllocError),
}

impl From<AllocError> for UpdnFault {
    ghost use Rattle.std.specs.Prelude.{◌≡◌};
    ghost use Rattle.fab_updn.specs.declared.up_down.UpdnFault.TheVariants.{Memory};

    ghost from_gives = { λ refused fault. fault ≡ Memory refused };

    fn from(refused: AllocError) -> UpdnFault {
        UpdnFault::Memory(refused)
    }
}

/// The up/down plan with these roots: one lane, level 0 for each source and LID connected to it, numbered. A component
/// in which no root is named has its centre as root; a root may be named several times.
pub fn updn(
    alloc: Global,
    fabric: &Fabric,
    hops: &Hops,
    roots: &[SwitchId],
) -> Result<Plan, UpdnFault>
    requires hops { AreHops fabric.now hops.now }
    requires roots { All (λ root. root.0 < length fabric.now.switches) roots.now }
    ensures plan { let named = map (λ (root : Switch). root.0) roots.now in
        IfOk result (λ plan. IsUpDownPlan fabric.now named plan) }
    ensures refusal { let named = map (λ (root : Switch). root.0) roots.now in
        IfErr result (λ fault. IsUpDownFault fabric.now named fault) }
    ensures certified { IfOk result (λ plan. IsCertified fabric.now plan) }
    ensures fits { IfOk result (λ plan. PlanFits fabric.now plan) }
    ensures tidy { IfOk result (λ plan. IsTidy fabric.now plan) }
{
    let tables = legal_tables(alloc, fabric, hops, roots)?;
    let plan = Plan {
        tables,
        lanes: None,
    };
    match certify(alloc, fabric, &plan)? {
        Certified::Numbers(numbered) => Ok(numbered),
        Certified::Refused(_) | Certified::RingUsed(_) => unreachable!(),
    }
}

/// The up/down tables with these roots. A component in which none is named has its centre as root.
fn legal_tables(
    alloc: Global,
    fabric: &Fabric,
    hops: &Hops,
    roots: &[SwitchId],
) -> Result<Tables, UpdnFault>
    requires hops { AreHops fabric.now hops.now }
    requires roots { All (λ root. root.0 < length fabric.now.switches) roots.now }
    ensures fabric { IfOk result (λ tables. IsFabric fabric.now) }
    ensures tables { IfOk result (λ tables. AreLegalTables fabric.now (map (λ (root : Switch). root.0) roots.now) tables) }
    ensures refusal { IfErr result (λ fault. IsUpDownFault fabric.now (map (λ (root : Switch). root.0) roots.now) fault) }
{
    let ranks = ranks_of(alloc, fabric, hops, roots)?;
    let costs = CostTable::of(alloc, fabric, &ranks)?;
    if let Some((from, to)) = first_missing(fabric.switches(), hops, &costs) {
        return Err(UpdnFault::NoLegalRoute { from, to });
    }
    let tables = up_down_tables(alloc, fabric, &ranks, &costs)?;
    Ok(tables)
}
