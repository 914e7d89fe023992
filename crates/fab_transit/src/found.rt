//! The virtual channels that packets to one LID take, as they are found, each once for each level.
//!
//! A mark for each virtual channel and level says that it is found: it stands where it equals the stamp. To find one
//! takes constant time, on average, and so does to take all away, as the next stamp is above all marks; only after
//! the last stamp the marks are written anew. Memory: 32 bytes for each virtual channel, and what is found.
ghost use Rattle.std.specs.Prelude.{◌≡◌, ◌*◌, ◌≤◌, [], length, slice_get, IfOk, OnOk};
ghost use Rattle.fab_transit.specs.Finding.{AreRooms, IsTakenIn, FindsOneMore};

use crate::plans::Plans;
use fab_certify::node_of;
use fab_tables::VirtualChannel;
use std::alloc::{AllocError, Global};
use std::marker::Model;

/// A virtual channel, and the level of the packets that take it.
#[derive(Clone, Copy, Drop)]
pub(crate) struct Taken {
    pub(crate) hop: VirtualChannel,
    pub(crate) level: u8,
}

/// What is found for one LID. It is seen as the list of it, with the counts of channels and of good lanes.
#[derive(Drop)]
pub(crate) struct Found {
    channels: u32,
    bound: u8,
    // 16 for each virtual channel, none above the stamp
    marks: Vec<u16>,
    stamp: u16,
    taken: Vec<Taken>,
}

impl Model for Found {
    ghost use Rattle.std.specs.Prelude.{◌≤◌, All};
    ghost use Rattle.fab_transit.specs.Finding.{Findings, AreFindings};
    ghost use Rattle.fab_transit.specs.Marks.{standing_marks};

    ghost Value = { Findings };

    ghost view = { λ f. record { channels = f.channels; bound = f.bound; taken = f.taken.items } };

    ghost invariant = { λ f. AreFindings f.channels f.bound (standing_marks f.stamp f.marks.items) f.taken.items
        × All (λ mark. mark ≤ f.stamp) f.marks.items };
}

impl Found {
    /// Nothing is found yet.
    pub(crate) fn new(alloc: Global, plans: &Plans) -> Result<Found, AllocError>
        ensures rooms { IfOk result (AreRooms plans.now) }
        ensures none { IfOk result (λ f. f.taken ≡ []) }
    {
        Ok(Found {
            channels: plans.fabric().channels(),
            bound: plans.bound(),
            marks: vec![in alloc; 0; plans.virtual_channels() as usize * 16]?,
            stamp: 1,
            taken: Vec::new(alloc),
        })
    }

    /// Takes all away.
    pub(crate) fn clear(&mut self)
        ensures { self.new ≡ record self.old { taken = [] } }
    {
        match self.stamp.checked_add(1) {
            Some(stamp) => self.stamp = stamp,
            None => {
                self.marks.fill(0);
                self.stamp = 1;
            }
        }
        self.taken.clear();
    }

    /// What was found at this place.
    pub(crate) fn get(&self, place: usize) -> Option<Taken>
        ensures there { result ≡ slice_get self.now.taken place }
        ensures few { length self.now.taken ≤ self.now.channels * self.now.bound * 16 }
    {
        self.taken.get(place).copied()
    }

    /// Adds a virtual channel and a level, unless it is found already.
    pub(crate) fn add(&mut self, taken: Taken) -> Result<(), AllocError>
        requires { IsTakenIn self.old.channels self.old.bound taken }
        ensures { OnOk result (FindsOneMore self.old taken self.new) }
    {
        let place = node_of(self.bound, taken.hop) as usize * 16 + taken.level as usize;
        if self.marks[place] != self.stamp {
            self.taken.push(taken)?;
            self.marks[place] = self.stamp;
        }
        Ok(())
    }
}
