//! The first LID whose port GUID can't be written: none is known of it, or a lesser LID has the same.
//!
//! Near-linear time in the LIDs, and the memory of a set of their port GUIDs.
ghost use Rattle.std.specs.Prelude.{◌≡◌, IfOk};
ghost use Rattle.fab_export.specs.Unfits.{bad_port_guid};

use crate::fault::Unfit;
use crate::port_guids::port_guid_of;
use fab_model::Fabric;
use std::alloc::{AllocError, Global};
use std::collections::HashSet;

/// The first LID without a port GUID, or with that of a lesser LID.
pub(crate) fn bad_port_guid(alloc: Global, fabric: &Fabric) -> Result<Option<Unfit>, AllocError>
    ensures { IfOk result (λ found. found ≡ bad_port_guid fabric.now) }
{
    let mut guids = HashSet::new(alloc);
    for lid in fabric.lids_in_use() {
        let lid = *lid;
        let guid = port_guid_of(fabric, lid);
        if guid == 0 {
            return Ok(Some(Unfit::NoPortGuid { lid }));
        }
        if guids.contains(&guid) {
            return Ok(Some(Unfit::TwicePortGuid { lid, guid }));
        }
        guids.insert(guid)?;
    }
    Ok(None)
}
