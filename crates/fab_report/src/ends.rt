//! How a route ends, and how long it is. Time: its hops.
ghost use Rattle.std.specs.Prelude.{◌≡◌, ◌<◌, length, Contains};
ghost use Rattle.fab_model.specs.Topology.{lids_of};
ghost use Rattle.fab_model.specs.WellFormed.{IsFabric};
ghost use Rattle.fab_tables.specs.Fit.{EntriesFit};
ghost use Rattle.fab_tables.specs.Reaching.{IsToward};
ghost use Rattle.fab_tables.specs.Route.{route as path};
ghost use Rattle.fab_report.specs.Summary.{hops_if_delivered};

use fab_model::{Fabric, Lid, SwitchId};
use fab_tables::{End, Tables, follow};

/// How the route from a switch to a LID ends.
pub(crate) fn end_of(fabric: &Fabric, tables: &Tables, from: SwitchId, lid: Lid) -> End
    requires fits { EntriesFit fabric.now tables.now }
    requires switch { from.0 < length fabric.now.switches }
    requires in_use { Contains (lids_of fabric.now) lid.0 }
    ensures end { result ≡ (path fabric.now tables.now from.0 lid.0).end }
    ensures kept { IsFabric fabric.now }
{
    let mut route = follow(fabric, tables, from, lid);
    while let Some(_) = route.next() {}
    route.end().unwrap()
}

/// How many hops the route from a switch to a LID has, 0 where it isn't delivered.
pub(crate) fn delivered_hops(fabric: &Fabric, tables: &Tables, from: SwitchId, lid: Lid) -> u32
    requires toward { IsToward fabric.now tables.now lid.0 }
    requires switch { from.0 < length fabric.now.switches }
    ensures { result ≡ hops_if_delivered (path fabric.now tables.now from.0 lid.0) }
{
    let mut route = follow(fabric, tables, from, lid);
    let mut hops = 0;
    while let Some(_) = route.next() {
        hops += 1;
    }
    match route.end() {
        Some(End::Delivered) => hops,
        _ => 0,
    }
}
