//! A fabric: a well-formed subnet, whose rows are numbered. Switches stand by GUID, channels by tail and out port,
//! terminals by LID, so that equal subnets have equal rows, in whatever order a text states them. It is made once,
//! from records or from rows, and does not change; what finds its rows is made with it.
//!
//! Memory: the rows, and 528 cells a switch for what is at its ports.
ghost use Rattle.std.specs.Prelude.{◌≡◌, ◌+◌, ◌<◌, ◌≤◌, ◌^◌, ◌==◌, length, slice_get, position, Some, None, IfOk, map, option_map};
ghost use Rattle.fab_text.specs.Readings.{Gives};
ghost use Rattle.fab_model.specs.Topology.{Topology, switch_id, channel_id, terminal_id, lid_id, switch_of, channel_at, terminal_at, IsReverse, first_channel, is_source, lids_of, place_of};
ghost use Rattle.fab_model.specs.declared.rows.Lid.{Lid};
ghost use Rattle.fab_model.specs.WellFormed.{IsFabric};
ghost use Rattle.fab_model.specs.Written.{MakesItself};
ghost use Rattle.fab_model.specs.Built as build;
ghost use Rattle.fab_model.specs.Faults.{first_fault};

mod without;

use crate::building::rows_of;
use crate::first_fault::find_fault;
use crate::indexes::{Indexes, PORT_CELLS};
use crate::{
    AdapterRow, ChannelId, ChannelRow, FabricFault, Lid, Place, Raw, SwitchId, SwitchRow,
    TerminalId, TerminalRow,
};
use std::alloc::{AllocError, Global};
use std::marker::Model;

/// A well-formed subnet: switches, adapters, the channels between switches and the terminals. It is seen as
/// these rows. Rows are found without going through them: a switch by its GUID in logarithmic time, all else in
/// constant time. No call but those that make a fabric takes memory.
#[derive(Drop)]
pub struct Fabric {
    switches: Vec<SwitchRow>,
    adapters: Vec<AdapterRow>,
    channels: Vec<ChannelRow>,
    terminals: Vec<TerminalRow>,
    indexes: Indexes,
}

impl Model for Fabric {
    ghost use Rattle.fab_model.specs.Topology.{Topology};
    ghost use Rattle.fab_model.specs.WellFormed.{IsFabric};

    ghost Value = { Topology };

    ghost view = { λ f. record { switches = f.switches.items; adapters = f.adapters.items; channels = f.channels.items; terminals = f.terminals.items } };

    ghost use Rattle.fab_model.specs.Indexed.{AreIndexes};

    ghost invariant = { λ f. IsFabric (record { switches = f.switches.items; adapters = f.adapters.items; channels = f.channels.items; terminals = f.terminals.items })
        × AreIndexes f.switches.items f.channels.items f.terminals.items f.indexes };
}

impl Fabric {
    /// The fabric of raw records, or their first fault: that of the first row of the table of faults that
    /// holds, with the least line at which it does. `Memory` may come in place of any answer. For n records it
    /// takes O(n log n) time and O(n) memory, beside what `of_rows` takes.
    pub fn build(alloc: Global, raw: &Raw) -> Result<Fabric, FabricFault>
        ensures rows { Gives build.wants_memory result (build.built raw.now) }
        // Its rows, written out as raw records, make it again.
        ensures itself { IfOk result MakesItself }
    {
        find_fault(alloc, raw)?;
        match Fabric::faultless(alloc, raw) {
            Ok(fabric) => Ok(fabric),
            Err(refused) => Err(FabricFault::Memory(refused)),
        }
    }

    /// The fabric of raw records without a fault.
    fn faultless(alloc: Global, raw: &Raw) -> Result<Fabric, AllocError>
        requires { first_fault raw.now ≡ None }
        ensures rows { IfOk result (λ fabric. fabric ≡ build.topology_of raw.now) }
        ensures itself { IfOk result MakesItself }
    {
        let rows = rows_of(alloc, raw)?;
        Fabric::of_rows(
            alloc,
            rows.switches,
            rows.adapters,
            rows.channels,
            rows.terminals,
        )
    }

    /// The fabric of rows that are one: for a generator, which makes rows. Switches and adapters stand by
    /// ascending GUID, channels by tail and out port, each with its reverse, and terminals by ascending LID.
    /// The error is want of memory. It takes 528 cells a switch and one for each number of 16 bits, and the time
    /// to fill them: O(switches log channels + channels + terminals + 65,536).
    pub fn of_rows(
        alloc: Global,
        switches: Vec<SwitchRow>,
        adapters: Vec<AdapterRow>,
        channels: Vec<ChannelRow>,
        terminals: Vec<TerminalRow>,
    ) -> Result<Fabric, AllocError>
        requires { IsFabric
            (record { switches = switches.items; adapters = adapters.items; channels = channels.items; terminals = terminals.items }) }
        ensures rows { IfOk result
            (λ fabric. fabric ≡ record { switches = switches.items; adapters = adapters.items; channels = channels.items; terminals = terminals.items }) }
        ensures itself { IfOk result MakesItself }
    {
        let indexes = Indexes::of_rows(alloc, &switches, &channels, &terminals)?;
        Ok(Fabric {
            switches,
            adapters,
            channels,
            terminals,
            indexes,
        })
    }

    /// How many switches there are. Constant time.
    pub fn switches(&self) -> u32
        ensures count { result ≡ length self.now.switches }
        ensures kept { IsFabric self.now }
    {
        self.switches.len() as u32
    }

    /// How many terminals there are. Constant time.
    pub fn terminals(&self) -> u32
        ensures count { result ≡ length self.now.terminals }
        ensures kept { IsFabric self.now }
    {
        self.terminals.len() as u32
    }

    /// How many adapters there are, those without a terminal included. Constant time.
    pub fn adapters(&self) -> u32
        ensures count { result ≡ length self.now.adapters }
        ensures kept { IsFabric self.now }
    {
        self.adapters.len() as u32
    }

    /// The switch of a number. Constant time.
    pub fn switch(&self, s: SwitchId) -> &SwitchRow
        requires { s.0 < length self.now.switches }
        ensures { slice_get self.now.switches s.0 ≡ Some result.now }
    {
        &self.switches[s.0 as usize]
    }

    /// The channel of a number. Constant time.
    pub fn channel(&self, c: ChannelId) -> ChannelRow
        requires { c.0 < length self.now.channels }
        ensures { slice_get self.now.channels c.0 ≡ Some result }
    {
        self.channels[c.0 as usize]
    }

    /// The terminal of a number. Constant time.
    pub fn terminal(&self, t: TerminalId) -> TerminalRow
        requires { t.0 < length self.now.terminals }
        ensures { slice_get self.now.terminals t.0 ≡ Some result }
    {
        self.terminals[t.0 as usize]
    }

    /// The adapter at a place of the list by ascending GUID. Constant time.
    pub fn adapter(&self, index: u32) -> &AdapterRow
        requires { index < length self.now.adapters }
        ensures { slice_get self.now.adapters index ≡ Some result.now }
    {
        &self.adapters[index as usize]
    }

    /// The switch to which a channel leads. Constant time.
    pub fn tip(&self, c: ChannelId) -> SwitchId
        requires { c.0 < length self.now.channels }
        ensures { option_map (λ row. row.tip) (slice_get self.now.channels c.0) ≡ Some result }
    {
        self.channels[c.0 as usize].tip
    }

    /// How many channels there are, two for each cable between switches. Constant time.
    pub fn channels(&self) -> u32
        ensures count { result ≡ length self.now.channels }
        ensures kept { IsFabric self.now }
    {
        self.channels.len() as u32
    }

    /// The channel that leaves a switch by a port; None exactly where none does. Constant time.
    pub fn channel_at(&self, s: SwitchId, port: u8) -> Option<ChannelId>
        requires { s.0 < length self.now.switches }
        ensures { result ≡ option_map channel_id (channel_at self.now s.0 port) }
    {
        self.indexes.channels_by_port[PORT_CELLS * s.0 as usize + port as usize]
    }

    /// The terminal that is cabled to a switch's port; None exactly where none is. Constant time.
    pub fn terminal_at(&self, s: SwitchId, port: u8) -> Option<TerminalId>
        requires { s.0 < length self.now.switches }
        ensures { result ≡ option_map terminal_id (terminal_at self.now s.0 port) }
    {
        self.indexes.terminals_by_port[PORT_CELLS * s.0 as usize + port as usize]
    }

    /// The switch that has a GUID; None exactly where none has it. Time in the logarithm of the switches.
    pub fn switch_of(&self, guid: u64) -> Option<SwitchId>
        ensures { result ≡ option_map switch_id (switch_of self.now guid) }
    {
        match self.switches.binary_search_by_key(&guid, |row| row.guid) {
            Ok(place) => Some(SwitchId(place as u32)),
            Err(_) => None,
        }
    }

    /// The number of the first channel that leaves a switch, and the number past its last. Constant time.
    pub fn leaves(&self, s: SwitchId) -> (u32, u32)
        requires { s.0 < length self.now.switches }
        ensures first { result.0 ≡ first_channel self.now s.0 }
        ensures past { result.1 ≡ first_channel self.now (s.0 + 1) }
        ensures ordered { result.0 ≤ result.1 }
        ensures within { result.1 ≤ length self.now.channels }
    {
        let switch = s.0 as usize;
        (
            self.indexes.first_channels[switch],
            self.indexes.first_channels[switch + 1],
        )
    }

    /// The switch of a LID, and the port there that leads to it; None exactly where the LID is not in use. Constant
    /// time.
    pub fn place_of(&self, lid: Lid) -> Option<Place>
        ensures { result ≡ place_of self.now lid.0 }
    {
        self.indexes.places_by_lid[lid.0 as usize]
    }

    /// How many LIDs are in use: one for each switch and each terminal. Constant time.
    #[tactic(auto, using(crate::proofs::Order::lids_are_counted))]
    pub fn lids(&self) -> u32
        ensures count { result ≡ length (lids_of self.now) }
        ensures kept { IsFabric self.now }
    {
        (self.switches.len() + self.terminals.len()) as u32
    }

    /// The LIDs in use, ascending: one for each switch and each terminal. Constant time.
    pub fn lids_in_use(&self) -> &[Lid]
        ensures lids { map (λ (lid : Lid). lid.0) result.now ≡ lids_of self.now }
        ensures kept { IsFabric self.now }
    {
        &self.indexes.lids_in_use
    }

    /// Whether a switch has a terminal. Constant time.
    pub fn has_terminal(&self, s: SwitchId) -> bool
        requires { s.0 < length self.now.switches }
        ensures { result ≡ is_source self.now s.0 }
    {
        self.indexes.sources_by_switch[s.0 as usize]
    }

    /// The channel of the same cable the other way. Constant time.
    pub fn reverse(&self, c: ChannelId) -> ChannelId
        requires { c.0 < length self.now.channels }
        ensures reverse { IsReverse self.now c.0 result.0 }
        ensures within { result.0 < length self.now.channels }
    {
        let row = self.channels[c.0 as usize];
        match self.channel_at(row.tip, row.tip_port) {
            Some(other) => other,
            None => unreachable!(),
        }
    }

    /// The LID at a place of the ascending list of those in use; None exactly at or past its end. Constant time.
    pub fn lid_at(&self, index: u32) -> Option<Lid>
        ensures { result ≡ option_map lid_id (slice_get (lids_of self.now) index) }
    {
        self.indexes.lids_in_use.get(index as usize).copied()
    }
}
