//! The entries that no engine chooses: at a LID's own switch the port of its place, and 255 where the switch isn't
//! connected to the LID. An engine begins with tables that have these and sets all others. They take linear time
//! in the LIDs, beside what tables take.
ghost use Rattle.std.specs.Prelude.{IfOk};
ghost use Rattle.fab_tables.specs.FixedEntries.{HasFixedEntries};

use fab_model::Fabric;
use fab_tables::Tables;
use std::alloc::{AllocError, Global};

/// Tables in which each LID's own switch has the port of the LID's place, and all other entries are 255. An engine
/// chooses the others. The error is want of memory.
pub fn with_fixed_entries(alloc: Global, fabric: &Fabric) -> Result<Tables, AllocError>
    ensures { IfOk result (HasFixedEntries fabric.now) }
{
    let mut tables = Tables::new(alloc, fabric)?;
    for lid in fabric.lids_in_use() {
        let place = fabric.place_of(*lid).unwrap();
        tables.set(place.switch, *lid, place.port);
    }
    Ok(tables)
}
