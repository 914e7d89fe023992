//! A plan: forwarding tables, and perhaps lanes.
ghost use Rattle.std.specs.Prelude.{◌≡◌, ◌↔◌, IfOk, IsTrue};

use crate::lanes::Lanes;
use crate::tables::Tables;
use fab_model::Fabric;
use std::alloc::{AllocError, Global};

/// Forwarding tables, and perhaps lanes.
#[derive(Drop)]
pub struct Plan {
    pub tables: Tables,
    pub lanes: Option<Lanes>,
}

impl Plan {
    ghost use Rattle.fab_tables.specs.Fit.{PlanFits};

    /// Whether the plan is over just this fabric's switches, LIDs and channels, and each pair's ports are
    /// ports of its switch.
    pub fn fits(&self, fabric: &Fabric) -> bool
        ensures { IsTrue result ↔ PlanFits fabric.now self.now }
    {
        self.tables.fit(fabric)
            && match &self.lanes {
                Some(lanes) => lanes.fit(fabric),
                None => true,
            }
    }

    /// An equal plan.
    pub fn copy(&self, alloc: Global) -> Result<Plan, AllocError>
        ensures { IfOk result (λ p. p ≡ self.now) }
    {
        let tables = self.tables.copy(alloc)?;
        let lanes = match &self.lanes {
            Some(lanes) => Some(lanes.copy(alloc)?),
            None => None,
        };
        Ok(Plan { tables, lanes })
    }
}
