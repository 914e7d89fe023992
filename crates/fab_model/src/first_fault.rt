//! The first fault of raw records. The faults are rows of a table, whose order is that of the search: nodes, links,
//! LIDs; of one row the least line is told. For n records it takes O(n) time and memory, with hashing: one map from
//! GUID to node serves the faults on GUIDs and on far ends, and sets and maps serve ports, sides of cables and LIDs.
ghost use Rattle.std.specs.Prelude.{◌≡◌, ◌≤◌, ◌++◌, IfOk, length, count_by};
ghost use Rattle.std.specs.List.{list_any};
ghost use Rattle.fab_model.specs.Records.{is_switch};
ghost use Rattle.fab_model.specs.Faults.{first_fault, first_of, least, node_lines, link_lines, has_too_many_ports, is_off_its_node, joins_adapters};
ghost use Rattle.fab_model.specs.FirstFault.{FindsFault, AreByGuid, node_rows, link_rows, lid_rows};

mod ends;
mod lids;
mod repeats;
mod scans;

use crate::{FabricFault, NodeKind, Raw, RawNode};
use ends::{one_sided, unknown_end};
use indexmap::IndexMap;
use lids::{lid_count, repeated_lid, with_bad_lid, with_lmc};
use repeats::{nodes_by_guid, repeated_port};
use scans::{first_link, first_node, lesser};
use std::alloc::Global;

/// The most switches of a fabric.
const SWITCH_LIMIT: usize = 2048;

/// The most LIDs in use.
const LID_LIMIT: usize = 16384;

/// The greatest port count of a node.
const PORT_LIMIT: u32 = 254;

/// The first fault of raw records, in the order of the table; Ok where there is none.
pub(crate) fn find_fault(alloc: Global, raw: &Raw) -> Result<(), FabricFault>
    ensures { FindsFault result (first_fault raw.now) }
{
    let by_guid = find_node_fault(alloc, raw)?;
    find_link_fault(alloc, raw, &by_guid)?;
    find_lid_fault(alloc, raw)
}

/// The first fault of the nodes. Where there is none, the nodes by GUID, in file order.
fn find_node_fault(alloc: Global, raw: &Raw) -> Result<IndexMap<u64, &RawNode>, FabricFault>
    ensures found { FindsFault result (first_of (node_rows raw.now)) }
    ensures by_guid { IfOk result (λ by_guid. AreByGuid raw.now.nodes by_guid) }
{
    let nodes = raw.nodes();
    if !has_switch(nodes) {
        return Err(FabricFault::NoSwitch);
    }
    if switch_count(nodes) > SWITCH_LIMIT {
        return Err(FabricFault::TooManySwitches);
    }
    let by_guid = nodes_by_guid(alloc, raw)?;
    if let Some(line) = port_out_of_range(raw) {
        return Err(FabricFault::PortRange { line });
    }
    Ok(by_guid)
}

/// The first fault of the links.
fn find_link_fault(
    alloc: Global,
    raw: &Raw,
    by_guid: &IndexMap<u64, &RawNode>,
) -> Result<(), FabricFault>
    requires { AreByGuid raw.now.nodes by_guid.now }
    ensures { FindsFault result (first_of (link_rows raw.now)) }
{
    if let Some(line) = repeated_port(alloc, raw).map_err(FabricFault::Memory)? {
        return Err(FabricFault::TwicePort { line });
    }
    if let Some(line) = unknown_end(raw, by_guid) {
        return Err(FabricFault::UnknownEnd { line });
    }
    if let Some(line) = adapters_joined(raw) {
        return Err(FabricFault::Unswitched { line });
    }
    if let Some(line) = one_sided(alloc, raw).map_err(FabricFault::Memory)? {
        return Err(FabricFault::OneSided { line });
    }
    Ok(())
}

/// The first fault of the LIDs.
fn find_lid_fault(alloc: Global, raw: &Raw) -> Result<(), FabricFault>
    ensures { FindsFault result (first_of (lid_rows raw.now)) }
{
    if let Some(line) = with_lmc(raw) {
        return Err(FabricFault::Lmc { line });
    }
    if let Some(line) = with_bad_lid(raw) {
        return Err(FabricFault::BadLid { line });
    }
    if let Some(line) = repeated_lid(alloc, raw).map_err(FabricFault::Memory)? {
        return Err(FabricFault::TwiceLid { line });
    }
    if lid_count(raw) > LID_LIMIT {
        return Err(FabricFault::TooManyLids);
    }
    Ok(())
}

/// Whether the nodes of a kind are switches.
fn is_switch(kind: NodeKind) -> bool
    ensures { result ≡ is_switch kind }
{
    kind == NodeKind::Switch
}

fn has_switch(nodes: &[RawNode]) -> bool
    ensures { result ≡ list_any (λ node. is_switch node.kind) nodes.now }
{
    nodes.iter().any(|node| is_switch(node.kind))
}

fn switch_count(nodes: &[RawNode]) -> usize
    ensures count { result ≡ count_by (λ node. is_switch node.kind) nodes.now }
    ensures within { result ≤ length nodes.now }
{
    nodes.iter().filter(|node| is_switch(node.kind)).count()
}

/// The line of the first node with too many ports or link at a port that its node does not have.
#[tactic(auto, using(crate::proofs::FirstFault::Lines::least_append))]
fn port_out_of_range(raw: &Raw) -> Option<u32>
    ensures { result ≡ least (node_lines has_too_many_ports raw.now ++ link_lines is_off_its_node raw.now) }
{
    let node = first_node(raw, |node| node.ports > PORT_LIMIT);
    let link = first_link(raw, |node, link| link.port == 0 || link.port > node.ports);
    lesser(node, link)
}

/// The line of the first link between two adapters.
fn adapters_joined(raw: &Raw) -> Option<u32>
    ensures { result ≡ least (link_lines joins_adapters raw.now) }
{
    first_link(raw, |node, link| {
        !is_switch(node.kind) && !is_switch(link.far_kind)
    })
}
