//! A plan as it is read with lanes, over its fabric and the fabric's components.
//!
//! Each call takes constant time, and no memory; hops take the time of the tables and the lanes.
ghost use Rattle.std.specs.Prelude.{◌≡◌, ◌<◌, ◌≤◌, ◌*◌, ◌↔◌, length, Contains, IsTrue};
ghost use Rattle.fab_model.specs.Topology.{lids_of};
ghost use Rattle.fab_model.specs.Connected.{AreConnected};
ghost use Rattle.fab_tables.specs.Fit.{EntriesFit, LanesFit};
ghost use Rattle.fab_tables.specs.LaneTables.{level as level_of};
ghost use Rattle.fab_tables.specs.Judged.{hops_from};
ghost use Rattle.fab_replies.specs.Read.{IsRead};

use fab_model::{Fabric, Lid, SwitchId};
use fab_tables::{Components, Lanes, RouteHops, Start, Tables, hops};
use std::marker::Model;

/// Tables and lanes of a plan, with what they stand over. It is seen as the fabric, the entries and the lanes.
#[derive(Drop)]
pub(crate) struct Reading<'a> {
    fabric: &'a Fabric,
    tables: &'a Tables,
    lanes: &'a Lanes,
    components: &'a Components<'a>,
    // how many virtual channels there are
    virtual_channels: u32,
}

impl<'a> Model for Reading<'a> {
    ghost use Rattle.std.specs.Prelude.{◌≡◌, ◌*◌, length};
    ghost use Rattle.fab_replies.specs.Read.{Read, IsRead};

    ghost Value = { Read };

    ghost view = { λ r. record { fabric = r.fabric.now; entries = r.tables.now; lanes = r.lanes.now } };

    ghost invariant = { λ r. IsRead (record { fabric = r.fabric.now; entries = r.tables.now; lanes = r.lanes.now }) × (r.components.now ≡ r.fabric.now)
        × (r.virtual_channels ≡ length r.fabric.now.channels * r.lanes.now.count) };
}

impl<'a> Reading<'a> {
    /// Tables and lanes over a fabric.
    pub(crate) fn new(
        fabric: &'a Fabric,
        tables: &'a Tables,
        lanes: &'a Lanes,
        components: &'a Components<'a>,
    ) -> Reading<'a>
        requires tables { EntriesFit fabric.now tables.now }
        requires lanes { LanesFit fabric.now lanes.now }
        requires components { components.now ≡ fabric.now }
        ensures { result ≡ record { fabric = fabric.now; entries = tables.now; lanes = lanes.now } }
    {
        Reading {
            fabric,
            tables,
            lanes,
            components,
            virtual_channels: fabric.channels() * u32::from(lanes.count()),
        }
    }

    /// The fabric.
    pub(crate) fn fabric(&self) -> &Fabric
        ensures fabric { result.now ≡ self.now.fabric }
        ensures kept { IsRead self.now }
    {
        self.fabric
    }

    /// The lane count.
    pub(crate) fn count(&self) -> u8
        ensures count { result ≡ self.now.lanes.count }
        ensures few { result ≤ 15 }
        ensures kept { IsRead self.now }
    {
        self.lanes.count()
    }

    /// How many pairs of ports have a map.
    pub(crate) fn pairs(&self) -> u32
        ensures { result ≡ length self.now.lanes.pairs }
    {
        self.lanes.pairs()
    }

    /// How many virtual channels there are: the channels times the lane count.
    pub(crate) fn virtual_channels(&self) -> u32
        ensures { result ≡ length self.now.fabric.channels * self.now.lanes.count }
    {
        self.virtual_channels
    }

    /// The level of a source for a LID.
    pub(crate) fn level(&self, source: SwitchId, lid: Lid) -> Option<u8>
        requires { source.0 < length self.now.fabric.switches }
        ensures level { result ≡ level_of self.now.lanes source.0 lid.0 }
        ensures kept { IsRead self.now }
    {
        self.lanes.level(source, lid)
    }

    /// Whether a walk of cables joins two switches.
    pub(crate) fn are_connected(&self, a: SwitchId, b: SwitchId) -> bool
        requires first { a.0 < length self.now.fabric.switches }
        requires second { b.0 < length self.now.fabric.switches }
        ensures { IsTrue result ↔ AreConnected self.now.fabric a.0 b.0 }
    {
        self.components.are_connected(a, b)
    }

    /// The virtual channels of the route from a start to a LID, at a level.
    pub(crate) fn hops(&self, start: Start, lid: Lid, level: u8) -> RouteHops
        requires switch { start.switch.0 < length self.now.fabric.switches }
        requires in_use { Contains (lids_of self.now.fabric) lid.0 }
        requires level { level < 16 }
        ensures { result.hops ≡ hops_from self.now.fabric self.now.entries self.now.lanes lid.0 start.switch.0 start.port level }
    {
        hops(self.fabric, self.tables, self.lanes, start, lid, level)
    }
}
