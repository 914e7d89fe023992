//! The costs of all switches on the way to each other.
//!
//! For S switches and C channels making the table takes O(S * (S + C)) time; it keeps 4 bytes for each pair of
//! switches, 16 MB for 2,048 switches.
ghost use Rattle.std.specs.Prelude.{◌≡◌, ◌<◌, [], length, IfOk, slice_index_or};
ghost use Rattle.fab_updn.specs.Found.{AreAllCosts, cost_at};

use crate::costs::{Cost, costs_to};
use crate::keys::by_key;
use fab_model::{Fabric, SwitchId};
use std::alloc::{AllocError, Global};
use std::marker::Model;

/// The costs on the way to each switch. It is seen as a list of lists of costs: by destination, and then by the switch
/// from which the way leads.
#[derive(Drop)]
pub(crate) struct CostTable {
    rows: Vec<Vec<Cost>>,
}

impl Model for CostTable {
    ghost use Rattle.std.specs.Prelude.{List, map};
    ghost use Rattle.fab_updn.specs.declared.costs.Cost.{Cost as CostOf};

    ghost Value = { List (List CostOf) };

    ghost view = { λ table. map (λ row. row.items) table.rows.items };
}

impl CostTable {
    /// The costs by the ranks, which are indexed by `SwitchId`. The error is want of memory.
    pub(crate) fn of(alloc: Global, fabric: &Fabric, ranks: &[u16]) -> Result<CostTable, AllocError>
        requires { length ranks.now ≡ length fabric.now.switches }
        ensures { IfOk result (AreAllCosts fabric.now ranks.now) }
    {
        let order = by_key(alloc, fabric, ranks)?;
        let mut rows = Vec::with_capacity(alloc, fabric.switches() as usize)?;
        for to in 0..fabric.switches() {
            rows.push(costs_to(alloc, fabric, ranks, &order, SwitchId(to))?)?;
        }
        Ok(CostTable { rows })
    }

    /// The costs of all switches on the way to one, indexed by `SwitchId`.
    pub(crate) fn to(&self, to: SwitchId) -> &[Cost]
        requires { to.0 < length self.now }
        ensures { result.now ≡ slice_index_or self.now to.0 [] }
    {
        self.rows[to.0 as usize].as_slice()
    }
}
