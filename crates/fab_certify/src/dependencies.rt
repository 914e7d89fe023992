//! The virtual channels that routes use, and their dependencies, as they are collected.
//!
//! A dependency is found again and again. For each virtual channel those that follow it stand in a list, which
//! is looked through: they are at most as many as its tip has ports, times the lane count.
ghost use Rattle.std.specs.Prelude.{◌≡◌, ◌<◌, ◌↔◌, ◌++◌, ◌∷◌, [], length, replicate, false, Contains, IfOk, OnOk, OnErr, IfSome, IsTrue, slice_index_or, slice_set};
ghost use Rattle.fab_certify.specs.Collected.{IsMarked, AddsHop};

use fab_rings::Graph;
use std::alloc::{AllocError, Global};
use std::marker::Model;

/// The numbers of the virtual channels that routes use, and the graph of the pairs of numbers that follow each
/// other on a route, each once.
#[derive(Drop)]
pub struct Dependencies {
    used: Vec<bool>,
    followers: Followers,
    graph: Graph,
}

impl Model for Dependencies {
    ghost use Rattle.fab_certify.specs.Collected.{Collected, AreFollowers};

    ghost Value = { Collected };

    ghost view = { λ d. record { used = d.used.items; pairs = d.graph.edges } };

    ghost invariant = { λ d. AreFollowers d.used.items d.graph d.followers };
}

impl Dependencies {
    /// None, where there are so many virtual channels.
    pub fn new(alloc: Global, nodes: u32) -> Result<Dependencies, AllocError>
        ensures used { IfOk result (λ d. d.used ≡ replicate nodes false) }
        ensures pairs { IfOk result (λ d. d.pairs ≡ []) }
    {
        Ok(Dependencies {
            used: vec![in alloc; false; nodes as usize]?,
            followers: Followers::new(alloc, nodes)?,
            graph: Graph::new(alloc, nodes)?,
        })
    }

    /// Adds a hop, which depends on the one before.
    pub fn add(&mut self, before: Option<u32>, node: u32) -> Result<(), AllocError>
        requires node { node < length self.old.used }
        requires before { IfSome before (λ first. first < length self.old.used) }
        ensures { OnOk result (AddsHop before node self.old self.new) }
    {
        self.used[node as usize] = true;
        if let Some(first) = before {
            if !self.followers.has(first, node) {
                self.graph.push(first, node)?;
                self.followers.push(first, node)?;
            }
        }
        Ok(())
    }

    /// Whether the virtual channel of a number is used.
    pub fn is_used(&self, node: u32) -> bool
        requires { node < length self.now.used }
        ensures { IsTrue result ↔ IsMarked self.now node }
    {
        self.used[node as usize]
    }

    /// The dependencies as a graph on the numbers.
    pub fn graph(&self) -> &Graph
        ensures nodes { result.now.nodes ≡ length self.now.used }
        ensures edges { result.now.edges ≡ self.now.pairs }
    {
        &self.graph
    }
}

/// For each number, a list of those that follow it.
#[derive(Drop)]
struct Followers {
    lists: Vec<Vec<u32>>,
}

impl Model for Followers {
    ghost use Rattle.std.specs.Prelude.{List, ℕ, map};

    ghost Value = { List (List ℕ) };

    ghost view = { λ f. map (λ v. v.items) f.lists.items };
}

impl Followers {
    fn new(alloc: Global, nodes: u32) -> Result<Followers, AllocError>
        ensures { IfOk result (λ f. f ≡ replicate nodes []) }
    {
        let mut lists = Vec::with_capacity(alloc, nodes as usize)?;
        for _ in 0..nodes {
            lists.push(Vec::new(alloc))?;
        }
        Ok(Followers { lists })
    }

    fn has(&self, first: u32, second: u32) -> bool
        requires { first < length self.now }
        ensures { IsTrue result ↔ Contains (slice_index_or self.now first []) second }
    {
        self.lists[first as usize].contains(&second)
    }

    fn push(&mut self, first: u32, second: u32) -> Result<(), AllocError>
        requires { first < length self.old }
        ensures ok { OnOk result (self.new ≡ slice_set self.old first (slice_index_or self.old first [] ++ second ∷ [])) }
        ensures err { OnErr result (self.new ≡ self.old) }
    {
        self.lists[first as usize].push(second)?;
        Ok(())
    }
}
