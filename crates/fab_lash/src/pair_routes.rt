//! The dependencies of a pair of switches: the channels that follow each other on the routes between them, both ways.
//!
//! Time: a step for each hop of the two routes. Memory: 8 bytes a hop.
//!
//! Source: Dally and Seitz: a packet holds a channel while it waits for the next one of its route.
ghost use Rattle.std.specs.Prelude.{◌≡◌, ◌<◌, ◌++◌, length, OnOk};
ghost use Rattle.fab_model.specs.WellFormed.{IsFabric};
ghost use Rattle.fab_tables.specs.Fit.{EntriesFit};
ghost use Rattle.fab_tables.specs.Reaching.{IsToward};
ghost use Rattle.fab_tables.specs.Route.{route};
ghost use Rattle.fab_lash.specs.Followers.{followers, pair_dependencies as dependencies_of};

use fab_depgraph::Dep;
use fab_model::{ChannelId, Fabric, Lid, SwitchId};
use fab_tables::{Tables, follow};
use std::alloc::AllocError;

/// Writes the dependencies of a pair into a list, in place of what stood there. The error is want of memory.
pub(crate) fn write_dependencies(
    fabric: &Fabric,
    tables: &Tables,
    low: SwitchId,
    high: SwitchId,
    dependencies: &mut Vec<Dep>,
) -> Result<(), AllocError>
    requires fabric { IsFabric fabric.now }
    requires tables { EntriesFit fabric.now tables.now }
    requires low { low.0 < length fabric.now.switches }
    requires high { high.0 < length fabric.now.switches }
    ensures { OnOk result (dependencies.new.items ≡ dependencies_of fabric.now tables.now low.0 high.0) }
{
    dependencies.clear();
    push_route(fabric, tables, low, fabric.switch(high).lid, dependencies)?;
    push_route(fabric, tables, high, fabric.switch(low).lid, dependencies)
}

/// Adds the dependencies of one route.
fn push_route(
    fabric: &Fabric,
    tables: &Tables,
    from: SwitchId,
    lid: Lid,
    dependencies: &mut Vec<Dep>,
) -> Result<(), AllocError>
    requires toward { IsToward fabric.now tables.now lid.0 }
    requires switch { from.0 < length fabric.now.switches }
    ensures { OnOk result (dependencies.new.items ≡ dependencies.old.items ++ followers (route fabric.now tables.now from.0 lid.0).channels) }
{
    let mut before: Option<ChannelId> = None;
    for second in follow(fabric, tables, from, lid) {
        if let Some(first) = before {
            dependencies.push(Dep { first, second })?;
        }
        before = Some(second);
    }
    Ok(())
}
