//! Rings and levels of three nodes.
use fab_rings::{Graph, Numbering, Ring, first_ring, levels, levels_or_ring};
use std::alloc::{AllocError, Global};
use std::process::Abort;
use std::test::Fail;

// Three nodes with these edges.
fn graph_of(rt: &impl Abort, alloc: Global, edges: &[(u32, u32)]) -> Result<Graph, AllocError> {
    let mut graph = Graph::new(alloc, 3)?;
    for (first, second) in edges {
        assert!(rt; *first < graph.nodes() && *second < graph.nodes());
        graph.push(*first, *second)?;
    }
    Ok(graph)
}

fn ring_of(found: Numbering) -> Option<Ring> {
    match found {
        Numbering::Levels(_) => None,
        Numbering::Ring(ring) => Some(ring),
    }
}

#[test]
fn a_ring_begins_with_its_least_node(rt: HostRuntime) -> Result<(), Fail> {
    let graph = graph_of(&rt, rt.alloc(), &[(2, 1), (1, 2), (0, 1)])?;
    let ring = first_ring(rt.alloc(), &graph)?.ok_or("a ring")?;
    assert_eq!(rt; ring.nodes(), [1, 2].as_slice());
    assert!(rt; levels(rt.alloc(), &graph)?.is_none());
    let ring = ring_of(levels_or_ring(rt.alloc(), &graph)?).ok_or("a ring")?;
    assert_eq!(rt; ring.nodes(), [1, 2].as_slice());
    Ok(())
}

#[test]
fn levels_rise_from_1(rt: HostRuntime) -> Result<(), Fail> {
    let graph = graph_of(&rt, rt.alloc(), &[(0, 1), (0, 2), (1, 2)])?;
    let found = levels(rt.alloc(), &graph)?.ok_or("levels")?;
    assert_eq!(rt; found.as_slice(), [1, 2, 3].as_slice());
    assert!(rt; first_ring(rt.alloc(), &graph)?.is_none());
    assert!(rt; ring_of(levels_or_ring(rt.alloc(), &graph)?).is_none());
    Ok(())
}

#[test]
fn an_edge_to_itself_is_a_ring(rt: HostRuntime) -> Result<(), Fail> {
    let graph = graph_of(&rt, rt.alloc(), &[(0, 1), (2, 2), (1, 2)])?;
    let ring = first_ring(rt.alloc(), &graph)?.ok_or("a ring")?;
    assert_eq!(rt; ring.nodes(), [2].as_slice());
    Ok(())
}
