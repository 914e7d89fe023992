//! The lines of a sweep: each failure with its costs, and their summary, in time and memory of the failures.
ghost use Rattle.std.specs.Prelude.{◌≡◌, ◌++◌, flat_map, IfOk, OnOk};
ghost use Rattle.fab_top.specs.ReportTexts.{cost_text, failure_line, losing, least_kept, greatest_changed, sweep_text};

use crate::report_texts::push_count;
use crate::texts::push_port;
use fab_model::Fabric;
use fab_sweep::SweepRow;
use fab_text::push_dec;
use std::alloc::{AllocError, Global};

/// A cost behind its word.
fn push_cost(to: &mut Vec<u8>, word: &[u8], cost: u64) -> Result<(), AllocError>
    ensures { OnOk result (to.new.items ≡ to.old.items ++ cost_text word.now cost) }
{
    to.extend_from_slice(word)?;
    push_dec(to, cost)
}

/// A failure, by its switch and port, and what it costs.
fn push_failure_line(to: &mut Vec<u8>, fabric: &Fabric, row: &SweepRow) -> Result<(), AllocError>
    ensures { OnOk result (to.new.items ≡ to.old.items ++ failure_line fabric.now row.now) }
{
    push_port(to, fabric, row.switch, row.port)?;
    push_cost(to, b" lost ", row.lost)?;
    push_cost(to, b" kept ", u64::from(row.kept))?;
    push_cost(to, b" changed ", row.changed)?;
    push_cost(to, b" moved ", row.moved)?;
    to.extend_from_slice(b"\n")
}

/// The failures and their costs.
fn push_failure_lines(
    to: &mut Vec<u8>,
    fabric: &Fabric,
    rows: &[SweepRow],
) -> Result<(), AllocError>
    ensures { OnOk result (to.new.items ≡ to.old.items ++ flat_map (failure_line fabric.now) rows.now) }
{
    for row in rows {
        push_failure_line(to, fabric, row)?;
    }
    Ok(())
}

/// How many failures lose a pair.
fn losing(rows: &[SweepRow]) -> usize
    ensures { result ≡ losing rows.now }
{
    rows.iter().filter(|row| row.lost > 0).count()
}

/// The least number of LIDs that a repair keeps, that of all LIDs where there is no failure.
fn least_kept(fabric: &Fabric, rows: &[SweepRow]) -> u32
    ensures { result ≡ least_kept fabric.now rows.now }
{
    let mut least = fabric.lids();
    for row in rows {
        least = least.min(row.kept);
    }
    least
}

/// The greatest number of entries that a repair changes, 0 where there is no failure.
fn greatest_changed(rows: &[SweepRow]) -> u64
    ensures { result ≡ greatest_changed rows.now }
{
    let mut greatest = 0;
    for row in rows {
        greatest = greatest.max(row.changed);
    }
    greatest
}

/// The lines of a sweep's rows, and of their summary.
pub(crate) fn sweep_text(
    alloc: Global,
    fabric: &Fabric,
    rows: &[SweepRow],
) -> Result<Vec<u8>, AllocError>
    ensures { IfOk result (λ text. text.items ≡ sweep_text fabric.now rows.now) }
{
    let mut text = Vec::new(alloc);
    push_failure_lines(&mut text, fabric, rows)?;
    push_count(&mut text, b"failures", rows.len() as u64)?;
    push_count(&mut text, b"losing", losing(rows) as u64)?;
    push_count(
        &mut text,
        b"least kept",
        u64::from(least_kept(fabric, rows)),
    )?;
    push_count(&mut text, b"greatest changed", greatest_changed(rows))?;
    Ok(text)
}
