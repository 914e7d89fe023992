//! Where the packets of the terminals start: at the switch and the port that a terminal is cabled to. Lanes are
//! looked at start by start; without maps of pairs of ports all starts of a source are alike, and the first is
//! enough.
//!
//! Finding them takes the time of sorting the terminals, and 8 bytes for each start.
ghost use Rattle.std.specs.Prelude.{◌≡◌, IfOk};
ghost use Rattle.fab_model.specs.Topology.{Topology};
ghost use Rattle.fab_tables.specs.Starts.{AreStarts, AreFirsts, AreAllStarts, AreStartsFor, IsInOrder};

use crate::lanes::Lanes;
use fab_model::{Fabric, SwitchId, TerminalId};
use std::alloc::{AllocError, Global};
use std::marker::Model;

/// The switch and the port that a terminal is cabled to.
#[derive(Clone, Copy, PartialEq, Eq, PartialOrd, Ord)]
pub struct Start {
    pub switch: SwitchId,
    pub port: u8,
}

/// The starts of all terminals of a fabric, by switch and then by port, one for each terminal. An error comes
/// where there is no memory for them. Time `n log n` and memory `n`, in terminals.
pub fn starts_of(alloc: Global, fabric: &Fabric) -> Result<Vec<Start>, AllocError>
    ensures { IfOk result (λ starts. AreStarts fabric.now starts.items) }
{
    let mut starts = Vec::new(alloc);
    for index in 0..fabric.terminals() {
        let row = fabric.terminal(TerminalId(index));
        starts.push(Start {
            switch: row.switch,
            port: row.port,
        })?;
    }
    starts.sort_unstable();
    Ok(starts)
}

/// The first start at each switch, of starts in order.
fn firsts_of(alloc: Global, starts: &[Start]) -> Result<Vec<Start>, AllocError>
    requires { IsInOrder starts.now }
    ensures { IfOk result (λ firsts. AreFirsts starts.now firsts.items) }
{
    let mut firsts = Vec::new(alloc);
    let mut source = None;
    for start in starts {
        if source != Some(start.switch) {
            firsts.push(*start)?;
            source = Some(start.switch);
        }
    }
    Ok(firsts)
}

/// The starts of the terminals of a fabric, and the first of each source. It is seen as both lists.
#[derive(Drop)]
pub struct Starts {
    all: Vec<Start>,
    firsts: Vec<Start>,
}

impl Model for Starts {
    ghost use Rattle.fab_tables.specs.Starts.{StartLists};

    ghost Value = { StartLists };

    ghost view = { λ s. record { all = s.all.items; firsts = s.firsts.items } };
}

impl Starts {
    /// The starts of all terminals of a fabric. It takes the time of sorting them.
    pub fn of(alloc: Global, fabric: &Fabric) -> Result<Starts, AllocError>
        ensures { IfOk result (AreAllStarts fabric.now) }
    {
        let all = starts_of(alloc, fabric)?;
        let firsts = firsts_of(alloc, &all)?;
        Ok(Starts { all, firsts })
    }

    /// Those of all terminals, by switch and port.
    pub fn all(&self) -> &[Start]
        ensures { result.now ≡ self.now.all }
    {
        &self.all
    }

    /// Those that stand for all terminals where lanes are looked at: without maps of pairs the first of each
    /// source, and else all.
    pub fn standing(&self, lanes: &Lanes) -> &[Start]
        ensures { (t : Topology) → AreAllStarts t self.now → AreStartsFor t lanes.now result.now }
    {
        if lanes.pairs() == 0 {
            &self.firsts
        } else {
            &self.all
        }
    }
}
