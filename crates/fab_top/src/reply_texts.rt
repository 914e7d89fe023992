//! The lines that tell what is said of replies: the numbers of the virtual channels, in time and memory of the channels; a
//! fault, in one line; or a ring, in time and memory of its length.
ghost use Rattle.std.specs.Prelude.{◌≡◌, ◌<◌, length, IfOk};
ghost use Rattle.fab_model.specs.WellFormed.{IsFabric};
ghost use Rattle.fab_top.specs.ReplyTexts.{replies_text, bad_reply_text, replied_text, CanBeTold};

use crate::change_texts::push_all_numbers;
use crate::texts::{push_guid, ring_text, verdict_text};
use fab_model::{Fabric, Lid, SwitchId};
use fab_replies::Replied;
use fab_tables::Lanes;
use fab_text::push_hex4;
use std::alloc::{AllocError, Global};

/// That packets and replies keep an order, with the numbers.
fn replies_text(alloc: Global, fabric: &Fabric, lanes: &Lanes) -> Result<Vec<u8>, AllocError>
    requires fabric { IsFabric fabric.now }
    requires channels { lanes.now.channels ≡ length fabric.now.channels }
    ensures { IfOk result (λ text. text.items ≡ replies_text fabric.now lanes.now) }
{
    let mut text = Vec::from_slice(alloc, b"ok: replies\n")?;
    push_all_numbers(&mut text, fabric, lanes)?;
    Ok(text)
}

/// That the reply to one LID from another takes a bad lane at a switch.
#[tactic(auto, unfolding(fab_dump::specs::Writing::hex4))]
fn bad_reply_text(
    alloc: Global,
    fabric: &Fabric,
    lid: Lid,
    from: Lid,
    at: SwitchId,
) -> Result<Vec<u8>, AllocError>
    ensures { IfOk result (λ text. text.items ≡ bad_reply_text fabric.now lid.0 from.0 at.0) }
{
    let mut text = Vec::new(alloc);
    text.extend_from_slice(b"no: reply to lid 0x")?;
    push_hex4(&mut text, lid.0)?;
    text.extend_from_slice(b" from lid 0x")?;
    push_hex4(&mut text, from.0)?;
    text.extend_from_slice(b": bad lane at switch ")?;
    push_guid(&mut text, fabric, at)?;
    text.extend_from_slice(b"\n")?;
    Ok(text)
}

/// What is said of the replies of a plan with so many lanes.
pub(crate) fn replied_text(
    alloc: Global,
    fabric: &Fabric,
    count: u8,
    replied: &Replied,
) -> Result<Vec<u8>, AllocError>
    requires fabric { IsFabric fabric.now }
    requires count { (0 < count) × (count < 16) }
    requires told { CanBeTold fabric.now replied.now }
    ensures { IfOk result (λ text. text.items ≡ replied_text fabric.now count replied.now) }
{
    match replied {
        Replied::Numbers(lanes) => replies_text(alloc, fabric, lanes),
        Replied::Refused(fault) => verdict_text(alloc, fabric, *fault),
        Replied::BadLane { lid, from, at } => bad_reply_text(alloc, fabric, *lid, *from, *at),
        Replied::RingReplies(ring) => ring_text(alloc, fabric, count, ring.nodes()),
    }
}
