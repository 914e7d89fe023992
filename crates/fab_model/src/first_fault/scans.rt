//! The first record at which a test passes. Records stand in the order of their lines.
ghost use Rattle.std.specs.Prelude.{◌≡◌, Bool};
ghost use Rattle.fab_model.specs.declared.raw.RawNode.{RawNode};
ghost use Rattle.fab_model.specs.Records.{Stated};
ghost use Rattle.fab_model.specs.Faults.{least, node_lines, link_lines};
ghost use Rattle.fab_model.specs.FirstFault.{TestsNodes, TestsLinks, lesser};

use crate::{Raw, RawLink, RawNode};

/// The line of the first node that passes.
pub(super) fn first_node<F: Fn(&RawNode) -> bool>(raw: &Raw, passes: F) -> Option<u32>
    requires { F.IsAlwaysCallable passes }
    ensures { (test : RawNode → Bool) → TestsNodes F.Fn passes test → result ≡ least (node_lines test raw.now) }
{
    let mut rest = raw.nodes();
    while let [node, after @ ..] = rest {
        if passes(node) {
            return Some(node.line);
        }
        rest = after;
    }
    None
}

/// The line of the first link that passes, tested with the node under whose head it stands.
pub(super) fn first_link<F: Fn(&RawNode, &RawLink) -> bool>(raw: &Raw, passes: F) -> Option<u32>
    requires { F.IsAlwaysCallable passes }
    ensures { (test : Stated → Bool) → TestsLinks F.Fn passes test → result ≡ least (link_lines test raw.now) }
{
    let nodes = raw.nodes();
    let mut rest = raw.links();
    while let [link, after @ ..] = rest {
        if passes(&nodes[link.node as usize], link) {
            return Some(link.line);
        }
        rest = after;
    }
    None
}

/// The lesser of two lines, either of which may be missing.
pub(super) fn lesser(first: Option<u32>, second: Option<u32>) -> Option<u32>
    ensures { result ≡ lesser first second }
{
    match (first, second) {
        (Some(line), Some(other)) => Some(line.min(other)),
        (Some(line), None) => Some(line),
        (None, other) => other,
    }
}
