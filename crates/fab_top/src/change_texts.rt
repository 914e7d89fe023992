//! The lines that tell what is said of a change of tables: the numbers of the virtual channels, in time and memory of
//! the channels; a fault in one of the plans, in one line; or a ring, in time and memory of its length.
ghost use Rattle.std.specs.Prelude.{◌≡◌, ◌<◌, ◌++◌, length, codes, flat_map, IfOk, OnOk};
ghost use Rattle.std.specs.List.{enumerate_from};
ghost use Rattle.fab_model.specs.WellFormed.{IsFabric};
ghost use Rattle.fab_top.specs.ChangeTexts.{numbers_text, transit_text, side_text, in_plan, mixed_text, HasNumbersOf};
ghost use Rattle.fab_top.specs.Texts.{lid_front};

use crate::texts::{end_text, lid_front, ring_text};
use fab_dump::push_numbers;
use fab_model::{ChannelId, Fabric, Lid, SwitchId};
use fab_tables::Lanes;
use fab_transit::{Mixed, Side};
use std::alloc::{AllocError, Global};

/// The numbers of all channels.
pub(crate) fn push_all_numbers(
    to: &mut Vec<u8>,
    fabric: &Fabric,
    lanes: &Lanes,
) -> Result<(), AllocError>
    requires fabric { IsFabric fabric.now }
    requires channels { lanes.now.channels ≡ length fabric.now.channels }
    ensures { OnOk result (to.new.items ≡ to.old.items ++ flat_map (numbers_text fabric.now lanes.now) (enumerate_from 0 fabric.now.channels)) }
{
    for c in 0..fabric.channels() {
        push_numbers(to, fabric, lanes, ChannelId(c))?;
    }
    Ok(())
}

/// That a change may be made, with the numbers.
fn transit_text(alloc: Global, fabric: &Fabric, lanes: &Lanes) -> Result<Vec<u8>, AllocError>
    requires fabric { IsFabric fabric.now }
    requires channels { lanes.now.channels ≡ length fabric.now.channels }
    ensures { IfOk result (λ text. text.items ≡ transit_text fabric.now lanes.now) }
{
    let mut text = Vec::from_slice(alloc, b"ok: transit\n")?;
    push_all_numbers(&mut text, fabric, lanes)?;
    Ok(text)
}

fn side_text(side: Side) -> &'static [u8]
    ensures { result.now ≡ side_text side }
{
    match side {
        Side::Old => b"old",
        Side::New => b"new",
    }
}

/// What is wrong in one of the plans.
fn push_in_plan(to: &mut Vec<u8>, side: Side, what: &[u8]) -> Result<(), AllocError>
    ensures { OnOk result (to.new.items ≡ to.old.items ++ in_plan side what.now) }
{
    to.extend_from_slice(what)?;
    to.extend_from_slice(b" in the ")?;
    to.extend_from_slice(side_text(side))?;
    to.extend_from_slice(b" plan")
}

/// What is wrong in one of the plans on the way to a LID, with words before the switch.
fn side_line(
    alloc: Global,
    fabric: &Fabric,
    lid: Lid,
    before: &[u8],
    s: SwitchId,
    side: Side,
    what: &[u8],
) -> Result<Vec<u8>, AllocError>
    ensures { IfOk result (λ text. text.items ≡ lid_front fabric.now lid.0 before.now s.0 ++ in_plan side what.now ++ codes "\n") }
{
    let mut text = lid_front(alloc, fabric, lid, before, s)?;
    push_in_plan(&mut text, side, what)?;
    text.extend_from_slice(b"\n")?;
    Ok(text)
}

/// What is said of a change, for so many lanes.
pub(crate) fn mixed_text(
    alloc: Global,
    fabric: &Fabric,
    count: u8,
    mixed: &Mixed,
) -> Result<Vec<u8>, AllocError>
    requires fabric { IsFabric fabric.now }
    requires count { (0 < count) × (count < 16) }
    requires numbers { HasNumbersOf fabric.now mixed.now }
    ensures { IfOk result (λ text. text.items ≡ mixed_text fabric.now count mixed.now) }
{
    match mixed {
        Mixed::Numbers(lanes) => transit_text(alloc, fabric, lanes),
        Mixed::NoLevel { lid, source, side } => side_line(
            alloc,
            fabric,
            *lid,
            b" from switch ",
            *source,
            *side,
            b"no level",
        ),
        Mixed::Lost { lid, at, side, end } => side_line(
            alloc,
            fabric,
            *lid,
            b" at switch ",
            *at,
            *side,
            end_text(*end),
        ),
        Mixed::BadLane { lid, at, side } => side_line(
            alloc,
            fabric,
            *lid,
            b" at switch ",
            *at,
            *side,
            b"bad lane",
        ),
        Mixed::RingMixed(ring) => ring_text(alloc, fabric, count, ring.nodes()),
    }
}
