//! The lines of reports: each channel with its load, in time and memory of the channels; the counts of a plan, in nine
//! lines; the LIDs that a repair kept, in one line and in time and memory of those LIDs.
ghost use Rattle.std.specs.Prelude.{◌≡◌, ◌<◌, ◌++◌, length, map, slice_get, flat_map, IfOk, IfSome, OnOk};
ghost use Rattle.std.specs.List.{enumerate_from};
ghost use Rattle.fab_model.specs.declared.rows.Lid.{Lid as Number};
ghost use Rattle.fab_top.specs.ReportTexts.{kept_front, kept_lid, kept_text, load_line, load_text, count_line, summary_text};

use crate::texts::push_channel;
use fab_model::{ChannelId, Fabric, Lid};
use fab_nue::LidList;
use fab_report::{Loads, SummaryRow};
use fab_text::{push_dec, push_hex4};
use std::alloc::{AllocError, Global};

/// A channel and its load.
fn push_load_line(
    to: &mut Vec<u8>,
    fabric: &Fabric,
    loads: &Loads,
    c: ChannelId,
) -> Result<(), AllocError>
    requires channel { c.0 < length fabric.now.channels }
    requires load { c.0 < length loads.now }
    ensures { OnOk result (IfSome (slice_get fabric.now.channels c.0) (λ row. to.new.items ≡ to.old.items ++ load_line fabric.now loads.now (c.0, row))) }
{
    push_channel(to, fabric, c)?;
    to.extend_from_slice(b" ")?;
    push_dec(to, loads.of(c))?;
    to.extend_from_slice(b"\n")
}

/// The channels and their loads.
fn push_load_lines(to: &mut Vec<u8>, fabric: &Fabric, loads: &Loads) -> Result<(), AllocError>
    requires { length loads.now ≡ length fabric.now.channels }
    ensures { OnOk result (to.new.items ≡ to.old.items ++ flat_map (load_line fabric.now loads.now) (enumerate_from 0 fabric.now.channels)) }
{
    for c in 0..fabric.channels() {
        push_load_line(to, fabric, loads, ChannelId(c))?;
    }
    Ok(())
}

/// The lines of the loads of all channels, and of the greatest one.
pub(crate) fn load_text(
    alloc: Global,
    fabric: &Fabric,
    loads: &Loads,
) -> Result<Vec<u8>, AllocError>
    requires { length loads.now ≡ length fabric.now.channels }
    ensures { IfOk result (λ text. text.items ≡ load_text fabric.now loads.now) }
{
    let mut text = Vec::new(alloc);
    push_load_lines(&mut text, fabric, loads)?;
    text.extend_from_slice(b"greatest ")?;
    push_dec(&mut text, loads.greatest())?;
    text.extend_from_slice(b"\n")?;
    Ok(text)
}

/// What is counted, and how many there are.
pub(crate) fn push_count(to: &mut Vec<u8>, word: &[u8], count: u64) -> Result<(), AllocError>
    ensures { OnOk result (to.new.items ≡ to.old.items ++ count_line word.now count) }
{
    to.extend_from_slice(word)?;
    to.extend_from_slice(b" ")?;
    push_dec(to, count)?;
    to.extend_from_slice(b"\n")
}

/// The lines of the counts of a plan.
pub(crate) fn summary_text(alloc: Global, row: &SummaryRow) -> Result<Vec<u8>, AllocError>
    ensures { IfOk result (λ text. text.items ≡ summary_text row.now) }
{
    let mut text = Vec::new(alloc);
    push_count(&mut text, b"switches", u64::from(row.switches))?;
    push_count(&mut text, b"terminals", u64::from(row.terminals))?;
    push_count(&mut text, b"channels", u64::from(row.channels))?;
    push_count(&mut text, b"lids", u64::from(row.lids))?;
    push_count(&mut text, b"lanes", u64::from(row.lanes))?;
    push_count(&mut text, b"numbers", u64::from(row.numbers))?;
    push_count(
        &mut text,
        b"greatest number",
        u64::from(row.greatest_number),
    )?;
    push_count(&mut text, b"hops", row.hops)?;
    push_count(&mut text, b"greatest load", row.greatest_load)?;
    Ok(text)
}

/// How many LIDs are kept, of how many.
fn kept_front(alloc: Global, kept: usize, lids: u32) -> Result<Vec<u8>, AllocError>
    ensures { IfOk result (λ text. text.items ≡ kept_front kept lids) }
{
    let mut text = Vec::new(alloc);
    text.extend_from_slice(b"kept ")?;
    push_dec(&mut text, kept as u64)?;
    text.extend_from_slice(b" of ")?;
    push_dec(&mut text, u64::from(lids))?;
    text.extend_from_slice(b":")?;
    Ok(text)
}

/// A kept LID.
#[tactic(auto, unfolding(fab_dump::specs::Writing::hex4))]
fn push_kept_lid(to: &mut Vec<u8>, lid: Lid) -> Result<(), AllocError>
    ensures { OnOk result (to.new.items ≡ to.old.items ++ kept_lid lid.0) }
{
    to.extend_from_slice(b" 0x")?;
    push_hex4(to, lid.0)
}

/// The kept LIDs.
fn push_kept_lids(to: &mut Vec<u8>, kept: &[Lid]) -> Result<(), AllocError>
    ensures { OnOk result (to.new.items ≡ to.old.items ++ flat_map (λ (lid : Number). kept_lid lid.0) kept.now) }
{
    for lid in kept {
        push_kept_lid(to, *lid)?;
    }
    Ok(())
}

/// The line that says which LIDs of a fabric a repair kept.
pub(crate) fn kept_text(
    alloc: Global,
    fabric: &Fabric,
    kept: &LidList,
) -> Result<Vec<u8>, AllocError>
    ensures { IfOk result (λ text. text.items ≡ kept_text fabric.now kept.now) }
{
    let kept = kept.lids();
    let mut text = kept_front(alloc, kept.len(), fabric.lids())?;
    push_kept_lids(&mut text, kept)?;
    text.extend_from_slice(b"\n")?;
    Ok(text)
}
