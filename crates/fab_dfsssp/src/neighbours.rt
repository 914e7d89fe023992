//! A list of neighbours for each node. Adding one takes constant time on average, and removing one a step for each
//! neighbour of the node. Memory: 24 bytes a node, and 4 for each neighbour.
ghost use Rattle.std.specs.Prelude.{◌≡◌, ◌<◌, ◌++◌, [], ◌∷◌, ◌==◌, not, length, replicate, filter, IfOk, OnOk, slice_set};
ghost use Rattle.fab_dfsssp.specs.CountedEdges.{list_at};

use std::alloc::{AllocError, Global};
use std::marker::Model;

/// For each node a list of nodes. It is seen as the list of these lists.
#[derive(Drop)]
pub(crate) struct Neighbours {
    lists: Vec<Vec<u32>>,
}

impl Model for Neighbours {
    ghost use Rattle.std.specs.Prelude.{List, ℕ, map};

    ghost Value = { List (List ℕ) };

    ghost view = { λ n. map (λ v. v.items) n.lists.items };
}

impl Neighbours {
    /// No neighbour of any of so many nodes.
    pub(crate) fn new(alloc: Global, nodes: u32) -> Result<Neighbours, AllocError>
        ensures { IfOk result (λ n. n ≡ replicate nodes []) }
    {
        let mut lists = Vec::with_capacity(alloc, nodes as usize)?;
        for _ in 0..nodes {
            lists.push(Vec::new(alloc))?;
        }
        Ok(Neighbours { lists })
    }

    /// How many nodes there are.
    pub(crate) fn len(&self) -> usize
        ensures { result ≡ length self.now }
    {
        self.lists.len()
    }

    /// The neighbours of a node.
    pub(crate) fn of(&self, node: u32) -> &[u32]
        requires { node < length self.now }
        ensures { result.now ≡ list_at self.now node }
    {
        self.lists[node as usize].as_slice()
    }

    /// Adds a neighbour at the end of a node's list.
    pub(crate) fn add(&mut self, node: u32, neighbour: u32) -> Result<(), AllocError>
        requires { node < length self.old }
        ensures { OnOk result (self.new ≡ slice_set self.old node (list_at self.old node ++ neighbour ∷ [])) }
    {
        self.lists[node as usize].push(neighbour)?;
        Ok(())
    }

    /// Removes a neighbour from a node's list, wherever it stands.
    pub(crate) fn remove(&mut self, node: u32, neighbour: u32)
        requires { node < length self.old }
        ensures { self.new ≡ slice_set self.old node (filter (λ other. not (other == neighbour)) (list_at self.old node)) }
    {
        self.lists[node as usize].retain(|other| *other != neighbour);
    }
}
