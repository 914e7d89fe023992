//! Directed graphs as lists of edges.
//!
//! Nodes are the numbers below a count. Edges are kept in the order in which they come, each as often as it
//! comes: what is said of a graph speaks of its edges alone, and repeats change nothing but the cost. Eight
//! bytes an edge.
ghost use Rattle.std.specs.Prelude.{◌≡◌, ◌<◌, [], ◌∷◌, ◌++◌, IfOk, OnOk, OnErr};
ghost use Rattle.fab_rings.specs.EdgeList.{IsGraph};

use std::alloc::{AllocError, Global};
use std::marker::Model;

/// A directed graph on the numbers below a count, as a list of edges.
#[derive(Drop)]
pub struct Graph {
    node_count: u32,
    edge_list: Vec<(u32, u32)>,
}

impl Model for Graph {
    ghost use Rattle.fab_rings.specs.EdgeList.{EdgeList, IsGraph};

    ghost Value = { EdgeList };

    ghost view = { λ g. record { nodes = g.node_count; edges = g.edge_list.items } };

    ghost invariant = { λ g. IsGraph (record { nodes = g.node_count; edges = g.edge_list.items }) };
}

impl Graph {
    /// A graph without edges.
    pub fn new(alloc: Global, nodes: u32) -> Result<Graph, AllocError>
        ensures { IfOk result (λ g. (g.nodes ≡ nodes) × (g.edges ≡ [])) }
    {
        Ok(Graph {
            node_count: nodes,
            edge_list: Vec::new(alloc),
        })
    }

    /// Adds an edge, which may be there already. An error comes for want of memory, and nothing is added then.
    /// In constant time, on average.
    pub fn push(&mut self, first: u32, second: u32) -> Result<(), AllocError>
        requires first { first < self.old.nodes }
        requires second { second < self.old.nodes }
        ensures ok { OnOk result (self.new ≡ record self.old { edges = self.old.edges ++ (first, second) ∷ [] }) }
        ensures err { OnErr result (self.new ≡ self.old) }
    {
        self.edge_list.push((first, second))?;
        Ok(())
    }

    /// How many nodes there are.
    pub fn nodes(&self) -> u32
        ensures count { result ≡ self.now.nodes }
        ensures kept { IsGraph self.now }
    {
        self.node_count
    }

    /// The edges in the order in which they were added.
    pub(crate) fn edges(&self) -> &[(u32, u32)]
        ensures edges { result.now ≡ self.now.edges }
        ensures kept { IsGraph self.now }
    {
        self.edge_list.as_slice()
    }
}
