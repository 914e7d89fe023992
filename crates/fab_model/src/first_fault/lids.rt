//! Faults of the LIDs in use: those of switches, and of the ports of adapters.
ghost use Rattle.std.specs.Prelude.{◌≡◌, ◌==◌, ℕ, None, Some, IfOk, OnOk, if◌then◌else◌, length, nat_eq};
ghost use Rattle.std.specs.HashMap.{get};
ghost use Rattle.fab_model.specs.Faults.{least, claims, claim_lines, has_lmc, is_bad_lid, repeats_lid};
ghost use Rattle.fab_model.specs.FirstFault.{lesser, is_later};

use super::scans::{first_link, first_node, lesser};
use super::{is_switch, switch_count};
use crate::Raw;
use std::alloc::{AllocError, Global};
use std::collections::HashMap;

/// The greatest unicast LID.
const GREATEST_LID: u32 = 0xBFFF;

/// The least line with an LMC above 0.
pub(super) fn with_lmc(raw: &Raw) -> Option<u32>
    ensures { result ≡ least (claim_lines has_lmc raw.now) }
{
    let switch = first_node(raw, |node| is_switch(node.kind) && node.lmc != 0);
    let port = first_link(raw, |node, link| !is_switch(node.kind) && link.lmc != 0);
    lesser(switch, port)
}

/// The least line with a number that is no unicast LID.
pub(super) fn with_bad_lid(raw: &Raw) -> Option<u32>
    ensures { result ≡ least (claim_lines is_bad_lid raw.now) }
{
    let switch = first_node(raw, |node| is_switch(node.kind) && is_bad_lid(node.lid));
    let port = first_link(raw, |node, link| {
        !is_switch(node.kind) && is_bad_lid(link.lid)
    });
    lesser(switch, port)
}

fn is_bad_lid(lid: u32) -> bool
    ensures { result ≡ is_bad_lid (record { line = 0; lid = lid; lmc = 0 }) }
{
    lid == 0 || lid > GREATEST_LID
}

/// Keeps the lesser of a line and the one that is kept for its LID.
fn keep_first(lines: &mut HashMap<u32, u32>, lid: u32, line: u32) -> Result<(), AllocError>
    ensures { OnOk result ((kept : ℕ) → get nat_eq lines.new kept ≡ lesser (get nat_eq lines.old kept) (if lid == kept then Some line else None)) }
{
    let first = match lines.get(&lid) {
        Some(first) => line.min(*first),
        None => line,
    };
    lines.insert(lid, first)?;
    Ok(())
}

/// The least line that states each LID in use.
fn first_lines(alloc: Global, raw: &Raw) -> Result<HashMap<u32, u32>, AllocError>
    ensures { IfOk result (λ lines. (lid : ℕ) → get nat_eq lines lid ≡ least (claim_lines (λ claim. claim.lid == lid) raw.now)) }
{
    let nodes = raw.nodes();
    let links = raw.links();
    let mut lines = HashMap::new(alloc);
    for node in nodes {
        if is_switch(node.kind) {
            keep_first(&mut lines, node.lid, node.line)?;
        }
    }
    for link in links {
        if !is_switch(nodes[link.node as usize].kind) {
            keep_first(&mut lines, link.lid, link.line)?;
        }
    }
    Ok(lines)
}

fn is_later(lines: &HashMap<u32, u32>, lid: u32, line: u32) -> bool
    ensures { result ≡ is_later (get nat_eq lines.now lid) line }
{
    match lines.get(&lid) {
        Some(first) => *first < line,
        None => false,
    }
}

/// The least line that states a LID again.
pub(super) fn repeated_lid(alloc: Global, raw: &Raw) -> Result<Option<u32>, AllocError>
    ensures { IfOk result (λ line. line ≡ least (claim_lines (repeats_lid raw.now) raw.now)) }
{
    let lines = first_lines(alloc, raw)?;
    let switch = first_node(raw, |node| {
        is_switch(node.kind) && is_later(&lines, node.lid, node.line)
    });
    let port = first_link(raw, |node, link| {
        !is_switch(node.kind) && is_later(&lines, link.lid, link.line)
    });
    Ok(lesser(switch, port))
}

/// How many switches and links under adapters there are.
pub(super) fn lid_count(raw: &Raw) -> usize
    ensures { result ≡ length (claims raw.now) }
{
    let nodes = raw.nodes();
    let links = raw.links();
    let mut ports = 0;
    for link in links {
        if !is_switch(nodes[link.node as usize].kind) {
            ports += 1;
        }
    }
    switch_count(nodes) + ports
}
