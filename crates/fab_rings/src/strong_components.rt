//! The strongly connected components of a graph.
//!
//! Two nodes are in one component where walks lead from each to the other. One search along the edges finds
//! all of them. A node is new, open or closed. The open nodes stand in the order in which they were found,
//! parted into groups: walks lead between any two nodes of a group, and from each group to all later ones. The
//! next edge to be looked at leaves the last group. Where it leads to
//!
//! - a new node, that is opened, in a group of its own;
//! - an open node, the groups from its own on are joined: a closed walk goes through them;
//! - a closed node, there is nothing to do.
//!
//! Where no edge is left, all edges from the last group lead into it or to closed nodes: it is a component, and
//! its nodes are closed. Components are numbered as they are closed, so numbers never rise along an edge.
//!
//! Each node is opened and closed once, each edge is looked at once, and a group is joined with an earlier one
//! at most once: time and memory are linear in the nodes and edges.
//!
//! Sources: R. Tarjan, "Depth-First Search and Linear Graph Algorithms", SIAM Journal on Computing 1 (1972);
//! P. Purdom, "A Transitive Closure Algorithm", BIT 10 (1970); I. Munro, "Efficient Determination of the
//! Transitive Closure of a Directed Graph", Information Processing Letters 1 (1971); H. N. Gabow, "Path-Based
//! Depth-First Search for Strong and Biconnected Components", Information Processing Letters 74 (2000).
ghost use Rattle.std.specs.Prelude.{◌≡◌, ◌<◌, ◌≤◌, ◌≢◌, ◌++◌, ◌∷◌, [], length, true, false, IfOk, OnOk, MatchOption, IsSome, All};
ghost use Rattle.std.specs.List.{range_with_len};
ghost use Rattle.fab_rings.specs.declared.strong_components.Group.{Group as Grouped};
ghost use Rattle.fab_rings.specs.EdgeList.{IsGraph};
ghost use Rattle.fab_rings.specs.StrongComponents.{AreStrongComponents};
ghost use Rattle.fab_rings.specs.PathSearch.{IsPathSearch, HasTaken, work_left, IsLast, IsLastDone, with_found, AreJoined, AreNumbered};

use crate::graph::Graph;
use crate::neighbours::Successors;
use std::alloc::{AllocError, Global};
use std::marker::Model;

/// The component of each node, as a number from 1 that never rises along an edge. Two nodes have the same one
/// exactly where walks lead from each to the other.
pub(crate) fn strong_components(
    alloc: Global,
    graph: &Graph,
    successors: &Successors,
) -> Result<Vec<usize>, AllocError>
    requires { successors.now ≡ graph.now }
    ensures { IfOk result (λ components. AreStrongComponents graph.now components.items) }
{
    let mut search = PathSearch::new(alloc, graph.nodes(), successors)?;
    while let Some(head) = search.next_head() {
        search.look_at(head)?;
    }
    Ok(search.into_components())
}

/// Open nodes between which walks lead.
#[derive(Clone, Copy, Drop)]
struct Group {
    /// The place of its first node among the open ones.
    first: usize,
    /// How many heads are kept for earlier groups.
    below: usize,
}

/// The state of a search.
#[derive(Drop)]
struct PathSearch<'s> {
    successors: &'s Successors<'s>,
    /// By node: 0 for one that is not found, else one more than its place among the open ones.
    places: Vec<usize>,
    /// By node: its component, or 0 where it is not closed.
    components: Vec<usize>,
    /// The open nodes, as they were found.
    opened: Vec<u32>,
    groups: Vec<Group>,
    /// The heads of edges that are to be looked at, group by group, behind all nodes.
    heads: Vec<u32>,
    /// How many components are closed.
    closed: usize,
}

impl<'s> Model for PathSearch<'s> {
    ghost use Rattle.fab_rings.specs.PathSearch.{PathSearched};

    ghost Value = { PathSearched };

    ghost view = { λ s. record { graph = s.successors.now; places = s.places.items; components = s.components.items; opened = s.opened.items; groups = s.groups.items; heads = s.heads.items; closed = s.closed } };
}

impl<'s> PathSearch<'s> {
    fn new(
        alloc: Global,
        nodes: u32,
        successors: &'s Successors<'s>,
    ) -> Result<PathSearch<'s>, AllocError>
        requires nodes { nodes ≡ successors.now.nodes }
        requires kept { IsGraph successors.now }
        ensures graph { IfOk result (λ s. s.graph ≡ successors.now) }
        ensures search { IfOk result IsPathSearch }
    {
        Ok(PathSearch {
            successors,
            places: vec![in alloc; 0; nodes as usize]?,
            components: vec![in alloc; 0; nodes as usize]?,
            opened: Vec::new(alloc),
            groups: Vec::new(alloc),
            heads: all_nodes(alloc, nodes)?,
            closed: 0,
        })
    }

    fn into_components(self) -> Vec<usize>
        ensures { result.items ≡ self.entry.components }
    {
        self.components
    }

    /// Closes the groups all of whose edges were looked at, and takes the head of the next edge. None where
    /// all nodes are closed.
    fn next_head(&mut self) -> Option<u32>
        requires { IsPathSearch self.old }
        ensures graph { self.new.graph ≡ self.old.graph }
        ensures next { MatchOption result (AreStrongComponents self.new.graph self.new.components) (HasTaken self.new) }
        ensures less { IsSome result → work_left self.new < work_left self.old }
    {
        while self.is_last_done() {
            self.close();
        }
        self.heads.pop()
    }

    /// Whether all edges that leave the last group were looked at.
    fn is_last_done(&self) -> bool
        ensures done { result ≡ true → IsLastDone self.now }
        ensures open_still { result ≡ false → (y : Grouped) → IsLast self.now.groups y → y.below ≢ length self.now.heads }
    {
        match self.groups.last() {
            Some(group) => group.below == self.heads.len(),
            None => false,
        }
    }

    /// Closes the last group: no edge leads from it to another open node, so it is a component.
    fn close(&mut self)
        requires search { IsPathSearch self.old }
        requires done { IsLastDone self.old }
        ensures graph { self.new.graph ≡ self.old.graph }
        ensures search { IsPathSearch self.new }
        ensures less { work_left self.new < work_left self.old }
    {
        let group = self.groups.pop().unwrap();
        self.closed += 1;
        set_numbers(
            &self.opened[group.first..],
            self.closed,
            &mut self.components,
        );
        self.opened.truncate(group.first);
    }

    /// Looks at an edge with this head.
    fn look_at(&mut self, head: u32) -> Result<(), AllocError>
        requires { HasTaken self.old head }
        ensures graph { OnOk result (self.new.graph ≡ self.old.graph) }
        ensures search { OnOk result (IsPathSearch self.new) }
        ensures less { OnOk result (work_left self.new ≤ work_left self.old) }
    {
        let place = self.places[head as usize];
        if place == 0 {
            self.find(head)?;
        } else if self.components[head as usize] == 0 {
            join_behind(&mut self.groups, place - 1);
        }
        Ok(())
    }

    /// Opens a new node, in a group of its own.
    fn find(&mut self, node: u32) -> Result<(), AllocError>
        requires node { node < self.old.graph.nodes }
        requires each { length self.old.places ≡ self.old.graph.nodes }
        ensures { OnOk result (self.new ≡ with_found self.old node) }
    {
        let group = Group {
            first: self.opened.len(),
            below: self.heads.len(),
        };
        self.groups.push(group)?;
        self.opened.push(node)?;
        self.places[node as usize] = self.opened.len();
        self.heads.extend_from_slice(self.successors.of(node))?;
        Ok(())
    }
}

/// All nodes, in order.
fn all_nodes(alloc: Global, nodes: u32) -> Result<Vec<u32>, AllocError>
    ensures { IfOk result (λ all. all.items ≡ range_with_len 0 nodes) }
{
    (0..nodes).collect(alloc)
}

/// Joins the groups that begin after a place with the one before them.
fn join_behind(groups: &mut Vec<Group>, place: usize)
    ensures { AreJoined groups.old.items groups.new.items place }
{
    while let Some(group) = groups.last() {
        if group.first <= place {
            break;
        }
        groups.pop();
    }
}

/// Gives these nodes a number.
fn set_numbers(nodes: &[u32], number: usize, numbers: &mut [usize])
    requires { All (λ a. a < length numbers.old) nodes.now }
    ensures { AreNumbered nodes.now number numbers.old numbers.new }
{
    for node in nodes {
        numbers[*node as usize] = number;
    }
}
