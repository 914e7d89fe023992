//! Links whose far end is missing, or does not name them.
ghost use Rattle.std.specs.Prelude.{◌≡◌, ℕ, Bool, IfOk, nat_eq, ◌&&◌};
ghost use Rattle.std.specs.Bool.{beq};
ghost use Rattle.std.specs.List.{list_any};
ghost use Rattle.std.specs.HashSet.{contains};
ghost use Rattle.indexmap.specs.IndexMap.{get};
ghost use Rattle.fab_model.specs.declared.first_fault.ends.End.{End};
ghost use Rattle.fab_model.specs.Records.{is_switch, stated};
ghost use Rattle.fab_model.specs.Faults.{least, link_lines, has_unknown_end, is_one_sided};
ghost use Rattle.fab_model.specs.FirstFault.{AreByGuid, is_of_kind, ends_of, same_side};

use super::is_switch;
use super::scans::first_link;
use crate::{NodeKind, Raw, RawLink, RawNode};
use indexmap::IndexMap;
use std::alloc::{AllocError, Global};
use std::collections::HashSet;

/// An end of a cable: the kind and the GUID of its node, and its port there.
#[derive(Clone, Copy, PartialEq, Eq, Hash)]
struct End {
    is_switch: bool,
    guid: u64,
    port: u32,
}

/// Whether there is a node of a kind with a GUID.
fn has_node(by_guid: &IndexMap<u64, &RawNode>, kind: NodeKind, guid: u64) -> bool
    ensures { result ≡ is_of_kind kind (get nat_eq by_guid.now guid) }
{
    by_guid.get(&guid).is_some_and(|node| node.kind == kind)
}

/// The line of the first link to a node that is not there.
pub(super) fn unknown_end(raw: &Raw, by_guid: &IndexMap<u64, &RawNode>) -> Option<u32>
    requires { AreByGuid raw.now.nodes by_guid.now }
    ensures { result ≡ least (link_lines (has_unknown_end raw.now) raw.now) }
{
    first_link(raw, |_, link| {
        !has_node(by_guid, link.far_kind, link.far_guid)
    })
}

/// The end at which a link is stated, and the one that it names.
fn ends(node: &RawNode, link: &RawLink) -> (End, End)
    ensures { result ≡ ends_of (record { node = node.now; link = link.now }) }
{
    let near = End {
        is_switch: is_switch(node.kind),
        guid: node.guid,
        port: link.port,
    };
    let far = End {
        is_switch: is_switch(link.far_kind),
        guid: link.far_guid,
        port: link.far_port,
    };
    (near, far)
}

/// The ends of each link.
fn sides(alloc: Global, raw: &Raw) -> Result<HashSet<(End, End)>, AllocError>
    ensures { IfOk result (λ set. (side : End × End) → contains same_side set side ≡ list_any (λ one. same_side (ends_of one) side) (stated raw.now)) }
{
    let nodes = raw.nodes();
    let links = raw.links();
    let mut sides = HashSet::new(alloc);
    for link in links {
        sides.insert(ends(&nodes[link.node as usize], link))?;
    }
    Ok(sides)
}

/// The line of the first link that its far end does not state.
pub(super) fn one_sided(alloc: Global, raw: &Raw) -> Result<Option<u32>, AllocError>
    ensures { IfOk result (λ line. line ≡ least (link_lines (is_one_sided raw.now) raw.now)) }
{
    let sides = sides(alloc, raw)?;
    Ok(first_link(raw, |node, link| {
        let (near, far) = ends(node, link);
        !sides.contains(&(far, near))
    }))
}
