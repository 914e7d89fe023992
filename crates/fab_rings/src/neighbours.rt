//! The edges of a graph, node by node.
//!
//! The list of edges is gone through once. For each node there is a list of the other ends of its edges, one
//! for each edge, in the order of the edges. Time and memory are linear in the nodes and edges.
ghost use Rattle.std.specs.Prelude.{◌≡◌, ◌<◌, ◌++◌, [], ◌∷◌, length, replicate, IfOk, OnOk, slice_index_or, slice_set};
ghost use Rattle.fab_rings.specs.EdgeList.{IsGraph};
ghost use Rattle.fab_rings.specs.Neighbours.{successors_of, predecessors_of, AreNeighbours};

use crate::graph::Graph;
use std::alloc::{AllocError, Global};
use std::marker::Model;

/// The edges of a graph by their tails. It is seen as the graph.
#[derive(Drop)]
pub(crate) struct Successors<'g> {
    graph: &'g Graph,
    heads: Lists,
}

impl<'g> Model for Successors<'g> {
    ghost use Rattle.fab_rings.specs.EdgeList.{EdgeList};
    ghost use Rattle.fab_rings.specs.Neighbours.{AreNeighbours, successors_of};

    ghost Value = { EdgeList };

    ghost view = { λ s. s.graph.now };

    ghost invariant = { λ s. AreNeighbours s.graph.now.nodes (successors_of s.graph.now.edges) s.heads };
}

impl<'g> Successors<'g> {
    pub(crate) fn new(alloc: Global, graph: &'g Graph) -> Result<Successors<'g>, AllocError>
        ensures { IfOk result (λ s. s ≡ graph.now) }
    {
        let heads = heads_of(alloc, graph)?;
        Ok(Successors { graph, heads })
    }

    /// The heads of the edges that leave a node, one for each edge.
    pub(crate) fn of(&self, node: u32) -> &[u32]
        requires { node < self.now.nodes }
        ensures { result.now ≡ successors_of self.now.edges node }
    {
        self.heads.of(node)
    }
}

/// The edges of a graph by their heads. It is seen as the graph.
#[derive(Drop)]
pub(crate) struct Predecessors<'g> {
    graph: &'g Graph,
    tails: Lists,
}

impl<'g> Model for Predecessors<'g> {
    ghost use Rattle.fab_rings.specs.EdgeList.{EdgeList};
    ghost use Rattle.fab_rings.specs.Neighbours.{AreNeighbours, predecessors_of};

    ghost Value = { EdgeList };

    ghost view = { λ p. p.graph.now };

    ghost invariant = { λ p. AreNeighbours p.graph.now.nodes (predecessors_of p.graph.now.edges) p.tails };
}

impl<'g> Predecessors<'g> {
    pub(crate) fn new(alloc: Global, graph: &'g Graph) -> Result<Predecessors<'g>, AllocError>
        ensures { IfOk result (λ p. p ≡ graph.now) }
    {
        let tails = tails_of(alloc, graph)?;
        Ok(Predecessors { graph, tails })
    }

    /// The tails of the edges that lead to a node, one for each edge.
    pub(crate) fn of(&self, node: u32) -> &[u32]
        requires { node < self.now.nodes }
        ensures { result.now ≡ predecessors_of self.now.edges node }
    {
        self.tails.of(node)
    }
}

fn heads_of(alloc: Global, graph: &Graph) -> Result<Lists, AllocError>
    ensures { IfOk result (AreNeighbours graph.now.nodes (successors_of graph.now.edges)) }
{
    let mut heads = Lists::new(alloc, graph.nodes())?;
    for edge in graph.edges() {
        heads.add(edge.0, edge.1)?;
    }
    Ok(heads)
}

fn tails_of(alloc: Global, graph: &Graph) -> Result<Lists, AllocError>
    ensures { IfOk result (AreNeighbours graph.now.nodes (predecessors_of graph.now.edges)) }
{
    let mut tails = Lists::new(alloc, graph.nodes())?;
    for edge in graph.edges() {
        tails.add(edge.1, edge.0)?;
    }
    Ok(tails)
}

/// A list of nodes for each node.
#[derive(Drop)]
struct Lists {
    lists: Vec<Vec<u32>>,
}

impl Model for Lists {
    ghost use Rattle.std.specs.Prelude.{List, ℕ, map};

    ghost Value = { List (List ℕ) };

    ghost view = { λ l. map (λ v. v.items) l.lists.items };
}

impl Lists {
    fn new(alloc: Global, nodes: u32) -> Result<Lists, AllocError>
        ensures { IfOk result (λ l. l ≡ replicate nodes []) }
    {
        let mut lists = Vec::with_capacity(alloc, nodes as usize)?;
        for _ in 0..nodes {
            lists.push(Vec::new(alloc))?;
        }
        Ok(Lists { lists })
    }

    fn add(&mut self, node: u32, neighbour: u32) -> Result<(), AllocError>
        requires { node < length self.old }
        ensures { OnOk result (self.new ≡ slice_set self.old node (slice_index_or self.old node [] ++ neighbour ∷ [])) }
    {
        self.lists[node as usize].push(neighbour)?;
        Ok(())
    }

    fn of(&self, node: u32) -> &[u32]
        requires { node < length self.now }
        ensures { result.now ≡ slice_index_or self.now node [] }
    {
        self.lists[node as usize].as_slice()
    }
}
