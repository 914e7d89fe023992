//! Service levels, lane maps and numbers of a plan: InfiniBand's service levels and SL-to-VL maps, and for each
//! virtual channel the number that shows that packets don't wait in a ring (Dally and Seitz). Reading one takes
//! constant time, but for maps of pairs of ports, which are found by halving.
ghost use Rattle.std.specs.Prelude.{◌≡◌, ◌<◌, ◌≤◌, ◌↔◌, length, IsTrue, IfOk, OnOk, OnErr, IsErrOf, IfSome, All, Contains, slice_get};
ghost use Rattle.fab_model.specs.Topology.{lids_of};
ghost use Rattle.fab_tables.specs.LaneTables.{level, lane, lane_at, number, no_lanes, with_level, with_lane, with_number, with_pair, HasRoomFor};
ghost use Rattle.fab_tables.specs.Fit.{LanesFit};

use crate::columns::Columns;
use crate::level_byte::{NO_LEVEL, byte_of, level_of};
use crate::pairs::{PAIRS, key_of_row, pair_in, pairs_fit, search_in};
use fab_model::{ChannelId, Fabric, Lid, SwitchId};
use std::alloc::{AllocError, Global};
use std::collections::VecDeque;
use std::marker::Model;

/// The lane by which nothing but management goes.
const LANE_15: u8 = 15;

/// The lane map of a switch for packets that come by one port and leave by another: an SL-to-VL map of
/// InfiniBand.
#[derive(Clone, Copy, Drop)]
pub struct PairRow {
    pub switch: SwitchId,
    /// The port by which the packets come; a terminal's packets come by the terminal's port.
    pub from_port: u8,
    /// The port by which they leave.
    pub to_port: u8,
    /// The lane of each of the 16 levels.
    pub map: [u8; 16],
}

/// Why a pair of ports was given no map.
#[derive(Drop)]
pub enum PairFault {
    /// The pair has no map yet, and 65,536 pairs have one.
    TooMany,
    /// There is no memory for one more pair.
    Memory(AllocError),
}

/// Service levels for each switch and each LID in use, lane maps (SL-to-VL tables), and for each channel
/// and data lane the number of the certificate. A level and a lane take one byte, a number four.
#[derive(Drop)]
pub struct Lanes {
    count: u8,
    switches: u32,
    channels: u32,
    columns: Columns,
    // column by column, the level of each switch
    levels: Vec<u8>,
    // switch by switch, the lane of each of the 16 levels
    general: Vec<u8>,
    // by (switch, from port, to port)
    pair_rows: VecDeque<PairRow>,
    // channel by channel, the number of each of the 15 data lanes
    numbers: Vec<u32>,
}

impl Model for Lanes {
    ghost use Rattle.fab_tables.specs.LaneTables.{LaneTables, AreLaneTables};

    ghost Value = { LaneTables };

    ghost use Rattle.fab_tables.specs.LaneBytes.{lane_tables};

    ghost view = { lane_tables };

    ghost invariant = { λ l. AreLaneTables (lane_tables l) };
}

impl Lanes {
    /// No level, every lane 15, no pair, every number 0.
    pub fn new(alloc: Global, fabric: &Fabric, count: u8) -> Result<Lanes, AllocError>
        requires { (0 < count) × (count ≤ 15) }
        ensures { IfOk result (λ l. l ≡ no_lanes count (length fabric.now.switches) (length fabric.now.channels) (lids_of fabric.now)) }
    {
        let columns = Columns::of(alloc, fabric)?;
        let switches = fabric.switches();
        let channels = fabric.channels();
        let levels = vec![in alloc; NO_LEVEL; columns.len() * switches as usize]?;
        let general = vec![in alloc; LANE_15; switches as usize * 16]?;
        let numbers = vec![in alloc; 0; channels as usize * 15]?;
        Ok(Lanes {
            count,
            switches,
            channels,
            columns,
            levels,
            general,
            pair_rows: VecDeque::new(alloc),
            numbers,
        })
    }

    /// The lane count.
    pub fn count(&self) -> u8
        ensures { result ≡ self.now.count }
    {
        self.count
    }

    /// The service level of a switch for a LID. It is None also where the LID isn't in use.
    pub fn level(&self, s: SwitchId, lid: Lid) -> Option<u8>
        requires { s.0 < self.now.switches }
        ensures { result ≡ level self.now s.0 lid.0 }
    {
        match self.columns.place(lid) {
            Some(place) => level_of(self.levels[place * self.switches as usize + s.0 as usize]),
            None => None,
        }
    }

    /// Gives a switch this level for a LID, or none. Nothing else changes.
    pub fn set_level(&mut self, s: SwitchId, lid: Lid, level: Option<u8>)
        requires switch { s.0 < self.old.switches }
        requires in_use { Contains self.old.in_use lid.0 }
        requires level { IfSome level (λ n. n < 16) }
        ensures { self.new ≡ with_level self.old s.0 lid.0 level }
    {
        if let Some(place) = self.columns.place(lid) {
            self.levels[place * self.switches as usize + s.0 as usize] = byte_of(level);
        }
    }

    /// The lane of a level in the general map of a switch.
    pub fn lane(&self, s: SwitchId, level: u8) -> u8
        requires switch { s.0 < self.now.switches }
        requires level { level < 16 }
        ensures { result ≡ lane self.now s.0 level }
    {
        self.general[s.0 as usize * 16 + level as usize]
    }

    /// Gives a level this lane in the general map of a switch. Nothing else changes.
    pub fn set_lane(&mut self, s: SwitchId, level: u8, lane: u8)
        requires switch { s.0 < self.old.switches }
        requires level { level < 16 }
        requires lane { lane < 16 }
        ensures { self.new ≡ with_lane self.old s.0 level lane }
    {
        self.general[s.0 as usize * 16 + level as usize] = lane;
    }

    /// Gives a pair of ports this map. After a fault nothing has changed.
    pub fn set_pair(&mut self, row: PairRow) -> Result<(), PairFault>
        requires switch { row.switch.0 < self.old.switches }
        requires map { All (λ lane. lane < 16) row.map }
        ensures ok { OnOk result (self.new ≡ with_pair self.old row) }
        ensures room { OnOk result (HasRoomFor self.old row) }
        ensures too_many { IsErrOf result PairFault.TooMany → ¬ HasRoomFor self.old row }
        ensures err { OnErr result (self.new ≡ self.old) }
    {
        match search_in(&self.pair_rows, key_of_row(&row)) {
            Ok(place) => {
                self.pair_rows[place] = row;
                Ok(())
            }
            Err(_) if self.pair_rows.len() >= PAIRS => Err(PairFault::TooMany),
            Err(place) => match self.pair_rows.insert(place, row) {
                Ok(()) => Ok(()),
                Err(_) => Err(PairFault::Memory(AllocError)),
            },
        }
    }

    /// How many pairs of ports have a map.
    pub fn pairs(&self) -> u32
        ensures { result ≡ length self.now.pairs }
    {
        self.pair_rows.len() as u32
    }

    /// The pair at this place by (switch, from port, to port).
    pub fn pair_at(&self, index: u32) -> Option<PairRow>
        ensures { result ≡ slice_get self.now.pairs index }
    {
        self.pair_rows.get(index as usize).copied()
    }

    /// The lane of a level for a packet that comes by one port and leaves by another: by the map of this
    /// pair of ports where it has one, else by the general map.
    pub fn lane_at(&self, s: SwitchId, from_port: u8, to_port: u8, level: u8) -> u8
        requires switch { s.0 < self.now.switches }
        requires level { level < 16 }
        ensures { result ≡ lane_at self.now s.0 from_port to_port level }
    {
        if self.pair_rows.is_empty() {
            return self.lane(s, level);
        }
        match pair_in(&self.pair_rows, s, from_port, to_port) {
            Some(row) => row.map[usize::from(level)],
            None => self.lane(s, level),
        }
    }

    /// The number of a channel's data lane; 0 means none.
    pub fn number(&self, c: ChannelId, lane: u8) -> u32
        requires channel { c.0 < self.now.channels }
        requires lane { lane < 15 }
        ensures { result ≡ number self.now c.0 lane }
    {
        self.numbers[c.0 as usize * 15 + lane as usize]
    }

    /// Gives a channel's data lane this number. Nothing else changes.
    pub fn set_number(&mut self, c: ChannelId, lane: u8, number: u32)
        requires channel { c.0 < self.old.channels }
        requires lane { lane < 15 }
        ensures { self.new ≡ with_number self.old c.0 lane number }
    {
        self.numbers[c.0 as usize * 15 + lane as usize] = number;
    }

    // Whether they are over just this fabric's switches, LIDs and channels, and each pair's ports are ports
    // of its switch.
    pub(crate) fn fit(&self, fabric: &Fabric) -> bool
        ensures { IsTrue result ↔ LanesFit fabric.now self.now }
    {
        self.switches == fabric.switches()
            && self.channels == fabric.channels()
            && self.columns.are_of(fabric)
            && pairs_fit(&self.pair_rows, fabric)
    }

    pub(crate) fn copy(&self, alloc: Global) -> Result<Lanes, AllocError>
        ensures { IfOk result (λ l. l ≡ self.now) }
    {
        Ok(Lanes {
            count: self.count,
            switches: self.switches,
            channels: self.channels,
            columns: self.columns.copy(alloc)?,
            levels: Vec::from_slice(alloc, &self.levels)?,
            general: Vec::from_slice(alloc, &self.general)?,
            pair_rows: self.pair_rows.clone()?,
            numbers: Vec::from_slice(alloc, &self.numbers)?,
        })
    }
}
