//! The levels of a source, one for each LID in use.
//!
//! A row takes a step and two bytes for each LID.
ghost use Rattle.std.specs.Prelude.{◌≡◌, ◌<◌, length, IfOk};
ghost use Rattle.fab_tables.specs.Fit.{LanesFit};
ghost use Rattle.fab_export.specs.SourceLevels.{levels_of, row_has};

use crate::reached::Reached;
use crate::used_levels::level_to;
use fab_model::SwitchId;
use fab_tables::Lanes;
use std::alloc::{AllocError, Global};

/// The levels of a source for the LIDs in use, ascending.
pub(crate) fn levels_of_source(
    alloc: Global,
    reached: &Reached,
    lanes: &Lanes,
    source: SwitchId,
) -> Result<Vec<Option<u8>>, AllocError>
    requires lanes { LanesFit reached.now.fabric lanes.now }
    requires source { source.0 < length reached.now.fabric.switches }
    ensures { IfOk result (λ row. row.items ≡ levels_of reached.now.fabric reached.now.entries lanes.now source.0) }
{
    let mut row = Vec::new(alloc);
    for lid in reached.lids() {
        row.push(level_to(reached, lanes, source, *lid))?;
    }
    Ok(row)
}

/// Whether a level is one of these.
pub(crate) fn has_level(row: &[Option<u8>], level: u8) -> bool
    ensures { result ≡ row_has row.now level }
{
    row.iter().any(|found| *found == Some(level))
}
