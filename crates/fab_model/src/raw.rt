//! Raw records: nodes and the links under them, each with the line that states it, in the order of a text. They
//! are what a reader of texts hands to the making of a fabric; nothing is judged here but the order. A record is
//! added in constant time, and kept as it is.
ghost use Rattle.std.specs.Prelude.{◌≡◌, ◌<◌, ◌++◌, [], ◌∷◌, length, OnOk, OnErr};
ghost use Rattle.fab_model.specs.Records.{Records, AreRecords, last_line};

use crate::Desc;
use std::alloc::{AllocError, Global};
use std::marker::Model;

/// What a node is: a switch, or a channel adapter.
#[derive(Clone, Copy, Debug, PartialEq, Eq)]
pub enum NodeKind {
    Switch,
    Adapter,
}

/// A node as a text states it: the line of its head, what it is, its GUID, how many ports it has, the LID and
/// the LMC of a switch (those of an adapter mean nothing), and its description.
#[derive(Drop)]
pub struct RawNode {
    pub line: u32,
    pub kind: NodeKind,
    pub guid: u64,
    pub ports: u32,
    pub lid: u32,
    pub lmc: u32,
    pub desc: Desc,
}

/// A port's cable as one end states it: its line, the node under whose head it stands by its place among the
/// nodes, the port there, and the kind, the GUID and the port of the far end. The port's GUID is 0 where none
/// is given. The LID and the LMC are those of an adapter's port; those of a switch's link mean nothing.
#[derive(Clone, Copy, Debug, PartialEq, Eq)]
pub struct RawLink {
    pub line: u32,
    pub node: u32,
    pub port: u32,
    pub far_kind: NodeKind,
    pub far_guid: u64,
    pub far_port: u32,
    pub port_guid: u64,
    pub lid: u32,
    pub lmc: u32,
}

/// The records of a text, nodes and links, each in file order. Lines are counted from 1, and no two records
/// stand on one.
#[derive(Drop)]
pub struct Raw {
    nodes: Vec<RawNode>,
    links: Vec<RawLink>,
}

impl Model for Raw {
    ghost use Rattle.fab_model.specs.Records.{Records, AreRecords};

    ghost Value = { Records };

    ghost view = { λ r. record { nodes = r.nodes.items; links = r.links.items } };

    ghost invariant = { λ r. AreRecords (record { nodes = r.nodes.items; links = r.links.items }) };
}

impl Raw {
    /// No records. It takes no memory yet.
    pub fn new(alloc: Global) -> Raw
        ensures { result ≡ record { nodes = []; links = [] } }
    {
        Raw {
            nodes: Vec::new(alloc),
            links: Vec::new(alloc),
        }
    }

    /// Adds a node below all records. The error is want of memory, and leaves them as they were. Constant time,
    /// but for when the list grows.
    pub fn push_node(&mut self, node: RawNode) -> Result<(), AllocError>
        requires { last_line self.old < node.line }
        ensures ok { OnOk result (self.new ≡ record self.old { nodes = self.old.nodes ++ node ∷ [] }) }
        ensures err { OnErr result (self.new ≡ self.old) }
    {
        // Tells what a description keeps.
        let _ = node.desc.bytes();
        self.nodes.push(node)?;
        Ok(())
    }

    /// Adds a link below all records, under a node that was added. The error is want of memory, and leaves them
    /// as they were. Constant time, but for when the list grows.
    pub fn push_link(&mut self, link: RawLink) -> Result<(), AllocError>
        requires line { last_line self.old < link.line }
        requires node { link.node < length self.old.nodes }
        ensures ok { OnOk result (self.new ≡ record self.old { links = self.old.links ++ link ∷ [] }) }
        ensures err { OnErr result (self.new ≡ self.old) }
    {
        self.links.push(link)?;
        Ok(())
    }

    /// The nodes, in file order. Constant time.
    pub fn nodes(&self) -> &[RawNode]
        ensures nodes { result.now ≡ self.now.nodes }
        ensures kept { AreRecords self.now }
    {
        &self.nodes
    }

    /// The links, in file order. Constant time.
    pub fn links(&self) -> &[RawLink]
        ensures links { result.now ≡ self.now.links }
        ensures kept { AreRecords self.now }
    {
        &self.links
    }
}
