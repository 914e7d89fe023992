//! InfiniBand's linear forwarding tables: for each switch and each LID in use the port by which packets leave. An
//! entry takes one byte, and constant time to read or set.
ghost use Rattle.std.specs.Prelude.{◌≡◌, ◌<◌, ◌↔◌, length, IfOk, IsTrue, Contains};
ghost use Rattle.fab_model.specs.Topology.{lids_of};
ghost use Rattle.fab_tables.specs.Entries.{entry, no_entries, with_entry};
ghost use Rattle.fab_tables.specs.Fit.{EntriesFit};

use crate::columns::Columns;
use fab_model::{Fabric, Lid, SwitchId};
use std::alloc::{AllocError, Global};
use std::marker::Model;

/// The entry of a switch that has no route to a LID.
const NO_ROUTE: u8 = 255;

/// Linear forwarding tables: for each switch and each LID in use the port by which packets leave, or 255
/// where there is no route. An entry takes one byte.
#[derive(Drop)]
pub struct Tables {
    columns: Columns,
    switches: u32,
    // column by column, a port for each switch
    ports: Vec<u8>,
}

impl Model for Tables {
    ghost use Rattle.fab_tables.specs.Entries.{Entries, AreEntries};

    ghost Value = { Entries };

    ghost view = { λ t. record { switches = t.switches; in_use = t.columns; ports = t.ports.items } };

    ghost invariant = { λ t. AreEntries (record { switches = t.switches; in_use = t.columns; ports = t.ports.items }) };
}

impl Tables {
    /// Tables in which every entry is 255.
    pub fn new(alloc: Global, fabric: &Fabric) -> Result<Tables, AllocError>
        ensures { IfOk result (λ t. t ≡ no_entries (length fabric.now.switches) (lids_of fabric.now)) }
    {
        let columns = Columns::of(alloc, fabric)?;
        let switches = fabric.switches();
        let ports = vec![in alloc; NO_ROUTE; columns.len() * switches as usize]?;
        Ok(Tables {
            columns,
            switches,
            ports,
        })
    }

    /// The port of a switch for a LID. It is 255 also where the LID isn't in use.
    pub fn get(&self, s: SwitchId, lid: Lid) -> u8
        requires { s.0 < self.now.switches }
        ensures { result ≡ entry self.now s.0 lid.0 }
    {
        match self.columns.place(lid) {
            Some(place) => self.ports[place * self.switches as usize + s.0 as usize],
            None => NO_ROUTE,
        }
    }

    /// Gives a switch this port for a LID. No other entry changes.
    pub fn set(&mut self, s: SwitchId, lid: Lid, port: u8)
        requires switch { s.0 < self.old.switches }
        requires in_use { Contains self.old.in_use lid.0 }
        ensures { self.new ≡ with_entry self.old s.0 lid.0 port }
    {
        if let Some(place) = self.columns.place(lid) {
            self.ports[place * self.switches as usize + s.0 as usize] = port;
        }
    }

    // Whether they are over just this fabric's switches and LIDs.
    pub(crate) fn fit(&self, fabric: &Fabric) -> bool
        ensures { IsTrue result ↔ EntriesFit fabric.now self.now }
    {
        self.switches == fabric.switches() && self.columns.are_of(fabric)
    }

    pub(crate) fn copy(&self, alloc: Global) -> Result<Tables, AllocError>
        ensures { IfOk result (λ t. t ≡ self.now) }
    {
        Ok(Tables {
            columns: self.columns.copy(alloc)?,
            switches: self.switches,
            ports: Vec::from_slice(alloc, &self.ports)?,
        })
    }
}
