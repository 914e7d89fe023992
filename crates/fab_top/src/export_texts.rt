//! The line of a reason against exporting a plan, in constant time and memory.
ghost use Rattle.std.specs.Prelude.{◌≡◌, ◌<◌, IfOk, codes, ◌++◌};
ghost use Rattle.fab_dump.specs.Writing.{hex16};
ghost use Rattle.fab_top.specs.Texts.{guid_text, from_text};
ghost use Rattle.fab_top.specs.ExportTexts.{of_lid_text, of_switch_text, of_level_text, ports_text, lane_bound_text, unfit_text, CanBeTold};

use crate::texts::{lid_front, push_guid, verdict_text};
use fab_export::Unfit;
use fab_model::{Fabric, Lid, SwitchId};
use fab_text::{push_dec, push_hex4, push_hex16, push_port3, push_two};
use std::alloc::{AllocError, Global};

/// That no port GUID is known of a LID.
#[tactic(auto, unfolding(fab_dump::specs::Writing::hex4))]
fn no_port_guid_text(alloc: Global, lid: Lid) -> Result<Vec<u8>, AllocError>
    ensures { IfOk result (λ text. text.items ≡ of_lid_text lid.0 (codes "no port guid")) }
{
    let mut text = Vec::new(alloc);
    text.extend_from_slice(b"no: lid 0x")?;
    push_hex4(&mut text, lid.0)?;
    text.extend_from_slice(b": no port guid\n")?;
    Ok(text)
}

/// That a LID has the port GUID of a lesser one.
#[tactic(auto, unfolding(fab_dump::specs::Writing::hex4, fab_dump::specs::Writing::hex16))]
fn twice_port_guid_text(alloc: Global, lid: Lid, guid: u64) -> Result<Vec<u8>, AllocError>
    ensures { IfOk result (λ text. text.items ≡ of_lid_text lid.0 (codes "port guid " ++ hex16 guid ++ codes " used twice")) }
{
    let mut text = Vec::new(alloc);
    text.extend_from_slice(b"no: lid 0x")?;
    push_hex4(&mut text, lid.0)?;
    text.extend_from_slice(b": port guid 0x")?;
    push_hex16(&mut text, guid)?;
    text.extend_from_slice(b" used twice\n")?;
    Ok(text)
}

/// That a source's route to a LID passes more than 64 switches.
fn too_far_text(
    alloc: Global,
    fabric: &Fabric,
    lid: Lid,
    source: SwitchId,
) -> Result<Vec<u8>, AllocError>
    ensures { IfOk result (λ text. text.items ≡ from_text fabric.now lid.0 source.0 (codes "more than 64 switches")) }
{
    let mut text = lid_front(alloc, fabric, lid, b" from switch ", source)?;
    text.extend_from_slice(b"more than 64 switches")?;
    text.extend_from_slice(b"\n")?;
    Ok(text)
}

/// What goes before the words for what is wrong with a switch.
fn switch_front(alloc: Global, fabric: &Fabric, switch: SwitchId) -> Result<Vec<u8>, AllocError>
    ensures { IfOk result (λ text. text.items ≡ codes "no: switch " ++ guid_text fabric.now switch.0 ++ codes ": ") }
{
    let mut text = Vec::new(alloc);
    text.extend_from_slice(b"no: switch ")?;
    push_guid(&mut text, fabric, switch)?;
    text.extend_from_slice(b": ")?;
    Ok(text)
}

/// That a pair of ports has a lane map of its own.
#[tactic(auto, unfolding(fab_dump::specs::Writing::port3))]
fn pair_map_text(
    alloc: Global,
    fabric: &Fabric,
    switch: SwitchId,
    from: u8,
    to: u8,
) -> Result<Vec<u8>, AllocError>
    ensures { IfOk result (λ text. text.items ≡ of_switch_text fabric.now switch.0 (codes "a lane map of its own " ++ ports_text from to)) }
{
    let mut text = switch_front(alloc, fabric, switch)?;
    text.extend_from_slice(b"a lane map of its own from port ")?;
    push_port3(&mut text, from)?;
    text.extend_from_slice(b" to port ")?;
    push_port3(&mut text, to)?;
    text.extend_from_slice(b"\n")?;
    Ok(text)
}

/// That a switch's lane map isn't that of the first switch.
fn map_differs_text(alloc: Global, fabric: &Fabric, switch: SwitchId) -> Result<Vec<u8>, AllocError>
    ensures { IfOk result (λ text. text.items ≡ of_switch_text fabric.now switch.0 (codes "lane map is not that of switch " ++ guid_text fabric.now 0)) }
{
    let mut text = switch_front(alloc, fabric, switch)?;
    text.extend_from_slice(b"lane map is not that of switch ")?;
    push_guid(&mut text, fabric, SwitchId(0))?;
    text.extend_from_slice(b"\n")?;
    Ok(text)
}

/// That a level in use has a lane that isn't below a bound.
#[tactic(auto, unfolding(fab_dump::specs::Writing::two))]
fn high_lane_text(alloc: Global, level: u8, lane: u8, bound: u8) -> Result<Vec<u8>, AllocError>
    requires level { level < 100 }
    requires lane { lane < 100 }
    ensures { IfOk result (λ text. text.items ≡ of_level_text level (lane_bound_text lane bound)) }
{
    let mut text = Vec::new(alloc);
    text.extend_from_slice(b"no: level ")?;
    push_two(&mut text, level)?;
    text.extend_from_slice(b": lane ")?;
    push_two(&mut text, lane)?;
    text.extend_from_slice(b" is not below ")?;
    push_dec(&mut text, u64::from(bound))?;
    text.extend_from_slice(b"\n")?;
    Ok(text)
}

/// The line of a reason against exporting a plan. Want of memory has none.
#[tactic(auto, unfolding(fab_dump::specs::Writing::two))]
pub(crate) fn unfit_text(
    alloc: Global,
    fabric: &Fabric,
    reason: Unfit,
) -> Result<Vec<u8>, AllocError>
    requires { CanBeTold reason }
    ensures { IfOk result (λ text. text.items ≡ unfit_text fabric.now reason) }
{
    match reason {
        Unfit::Refused(fault) => verdict_text(alloc, fabric, fault),
        Unfit::NoPortGuid { lid } => no_port_guid_text(alloc, lid),
        Unfit::TwicePortGuid { lid, guid } => twice_port_guid_text(alloc, lid, guid),
        Unfit::TooFar { lid, source } => too_far_text(alloc, fabric, lid, source),
        Unfit::PairMap {
            switch,
            from_port,
            to_port,
        } => pair_map_text(alloc, fabric, switch, from_port, to_port),
        Unfit::MapDiffers { switch } => map_differs_text(alloc, fabric, switch),
        Unfit::HighLane { level, lane, bound } => high_lane_text(alloc, level, lane, bound),
        Unfit::NoLevelZero => Vec::from_slice(alloc, b"no: level 00: not in use\n"),
        Unfit::NoSpareLevel => Vec::from_slice(alloc, b"no: every level is in use\n"),
        Unfit::NoLanes => Vec::from_slice(alloc, b"no: no lanes\n"),
        Unfit::Memory(_) => Ok(Vec::new(alloc)),
    }
}
