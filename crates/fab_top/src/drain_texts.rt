//! The lines that tell how packets drain: two counts, or a ring, in time and memory of its length.
ghost use Rattle.std.specs.Prelude.{◌≡◌, ◌<◌, IfOk};
ghost use Rattle.fab_top.specs.DrainTexts.{drained_text, waiting_front, waiting_text};

use crate::report_texts::push_count;
use crate::texts::{push_ring_lines, ring_front};
use fab_model::Fabric;
use fab_text::push_dec;
use std::alloc::{AllocError, Global};

/// How many packets there were, and how many moves emptied the fabric.
pub(crate) fn drained_text(alloc: Global, packets: u32, moves: u64) -> Result<Vec<u8>, AllocError>
    ensures { IfOk result (λ text. text.items ≡ drained_text packets moves) }
{
    let mut text = Vec::new(alloc);
    push_count(&mut text, b"packets", u64::from(packets))?;
    push_count(&mut text, b"moves", moves)?;
    text.extend_from_slice(b"empty\n")?;
    Ok(text)
}

/// How many packets wait after so many moves.
fn waiting_front(alloc: Global, packets: u32, moves: u64) -> Result<Vec<u8>, AllocError>
    ensures { IfOk result (λ text. text.items ≡ waiting_front packets moves) }
{
    let mut text = Vec::new(alloc);
    text.extend_from_slice(b"no: ")?;
    push_dec(&mut text, u64::from(packets))?;
    text.extend_from_slice(b" packets wait after ")?;
    push_dec(&mut text, moves)?;
    text.extend_from_slice(b" moves, ring of ")?;
    Ok(text)
}

/// How many packets wait after so many moves, and the ring of virtual channels on so many lanes to which they lead.
pub(crate) fn waiting_text(
    alloc: Global,
    fabric: &Fabric,
    count: u8,
    packets: u32,
    moves: u64,
    ring: &[u32],
) -> Result<Vec<u8>, AllocError>
    requires { (0 < count) × (count < 16) }
    ensures { IfOk result (λ text. text.items ≡ waiting_text fabric.now count packets moves ring.now) }
{
    let front = waiting_front(alloc, packets, moves)?;
    let mut text = ring_front(alloc, &front, ring)?;
    push_ring_lines(&mut text, fabric, count, ring)?;
    Ok(text)
}
