//! Up/down routing with named roots: the roots are looked for first, in the order in which they were named. Looking for a
//! root takes time in the logarithm of the switches; the rest is the time and memory of hop counts and of the engine.
ghost use Rattle.std.specs.Prelude.{◌≡◌, ◌<◌, length, map, All, IfOk};
ghost use Rattle.fab_model.specs.declared.rows.SwitchId.{SwitchId as Switch};
ghost use Rattle.fab_top.specs.Files.{roots_from};
ghost use Rattle.fab_top.specs.Outcomes.{LaysUpDownRightly};
ghost use Rattle.fab_top.specs.Taking.{IsTaken, viewed};

use crate::engines::EngineAnswer;
use crate::fault_texts::unknown_root_text;
use crate::outcome::Stop;
use crate::texts::no_legal_route_text;
use fab_hops::Hops;
use fab_model::{Fabric, SwitchId};
use fab_updn::{UpdnFault, updn};
use std::alloc::Global;

/// The switches with these GUIDs, which are all in the fabric.
fn known_roots(alloc: Global, fabric: &Fabric, guids: &[u64]) -> Result<Vec<SwitchId>, Stop>
    ensures taken { IsTaken (viewed (λ roots. map (λ (root : Switch). root.0) roots.items) result) (roots_from 0 fabric.now guids.now) }
    ensures within { IfOk result (λ roots. All (λ root. root.0 < length fabric.now.switches) roots.items) }
{
    let mut roots = Vec::new(alloc);
    for guid in guids {
        let Some(root) = fabric.switch_of(*guid) else {
            return Err(Stop::Refused(unknown_root_text(alloc, roots.len())?));
        };
        roots
            .push(root)
            .map_err(|refused| Stop::Memory(refused.into()))?;
    }
    Ok(roots)
}

/// What up/down routing with the roots of these GUIDs makes of a fabric.
pub(crate) fn up_down(alloc: Global, fabric: &Fabric, guids: &[u64]) -> Result<EngineAnswer, Stop>
    ensures { LaysUpDownRightly fabric.now (roots_from 0 fabric.now guids.now) result }
{
    let roots = known_roots(alloc, fabric, guids)?;
    let hops = Hops::of(alloc, fabric)?;
    match updn(alloc, fabric, &hops, &roots) {
        Ok(plan) => Ok(EngineAnswer::Plan(plan)),
        Err(UpdnFault::NoLegalRoute { from, to }) => Ok(EngineAnswer::No(no_legal_route_text(
            alloc, fabric, from, to,
        )?)),
        Err(UpdnFault::Memory(refused)) => Err(Stop::Memory(refused)),
    }
}
