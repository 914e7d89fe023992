//! What only one record may have: a node its GUID, and a link its port.
ghost use Rattle.std.specs.Prelude.{◌≡◌, IfOk};
ghost use Rattle.fab_model.specs.FirstFault.{FindsFault, AreByGuid};
ghost use Rattle.fab_model.specs.Faults.{least, at_least_line, node_lines, link_lines, repeats_guid, repeats_port};

use crate::{FabricFault, Raw, RawNode};
use indexmap::IndexMap;
use std::alloc::{AllocError, Global};
use std::collections::HashSet;

/// The nodes by their GUIDs, in file order; `TwiceGuid` with the line of the first node that has the GUID of an
/// earlier one.
pub(super) fn nodes_by_guid(
    alloc: Global,
    raw: &Raw,
) -> Result<IndexMap<u64, &RawNode>, FabricFault>
    ensures found { FindsFault result (at_least_line FabricFault.TwiceGuid (node_lines (repeats_guid raw.now) raw.now)) }
    ensures by_guid { IfOk result (λ by_guid. AreByGuid raw.now.nodes by_guid) }
{
    let nodes = raw.nodes();
    let mut by_guid = IndexMap::new(alloc);
    for node in nodes {
        let earlier = by_guid
            .insert(node.guid, node)
            .map_err(|refused| FabricFault::Memory(refused.into()))?;
        if earlier.is_some() {
            return Err(FabricFault::TwiceGuid { line: node.line });
        }
    }
    Ok(by_guid)
}

/// The line of the first link with the node and the port of an earlier one.
pub(super) fn repeated_port(alloc: Global, raw: &Raw) -> Result<Option<u32>, AllocError>
    ensures { IfOk result (λ line. line ≡ least (link_lines (repeats_port raw.now) raw.now)) }
{
    let links = raw.links();
    let mut seen = HashSet::new(alloc);
    for link in links {
        if !seen.insert((link.node, link.port))? {
            return Ok(Some(link.line));
        }
    }
    Ok(None)
}
