//! The cables that fail in a sweep: each is named by the switch and the port from which its channel leaves.
ghost use Rattle.std.specs.Prelude.{◌≡◌, ◌<◌, ◌==◌, length, map, filter, IfOk};
ghost use Rattle.fab_model.specs.WellFormed.{IsFabric};
ghost use Rattle.fab_sweep.specs.Failures.{cable_of};

use fab_model::{Cable, ChannelId, ChannelRow, Fabric, SwitchId};
use std::alloc::{AllocError, Global};

/// The cable of a channel.
pub(crate) fn cable_of(fabric: &Fabric, row: ChannelRow) -> Cable
    requires { row.tail.0 < length fabric.now.switches }
    ensures { result ≡ cable_of fabric.now row }
{
    Cable {
        guid: fabric.switch(row.tail).guid,
        port: u32::from(row.port),
    }
}

/// All cables of a switch, by its ports.
pub(crate) fn cables_of(
    alloc: Global,
    fabric: &Fabric,
    s: SwitchId,
) -> Result<Vec<Cable>, AllocError>
    requires fabric { IsFabric fabric.now }
    requires switch { s.0 < length fabric.now.switches }
    ensures { IfOk result (λ cables. cables.items ≡ map (cable_of fabric.now) (filter (λ row. row.tail.0 == s.0) fabric.now.channels)) }
{
    let (first, past) = fabric.leaves(s);
    let mut cables = Vec::new(alloc);
    for channel in first..past {
        let row = fabric.channel(ChannelId(channel));
        cables.push(cable_of(fabric, row))?;
    }
    Ok(cables)
}
