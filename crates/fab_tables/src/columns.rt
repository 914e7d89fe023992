//! The columns of tables: the LIDs in use, ascending, and for each LID its place among them. A place is found
//! in constant time by a table of all 65,536 LIDs, which takes 128 KiB.
ghost use Rattle.std.specs.Prelude.{◌≡◌, ◌<◌, ◌↔◌, length, All, IfOk, IfSome, IsTrue};
ghost use Rattle.fab_model.specs.Topology.{lids_of};
ghost use Rattle.fab_tables.specs.Entries.{index_of};
ghost use Rattle.fab_tables.specs.Columns.{AreLids, HasPlaces};

use fab_model::{Fabric, Lid};
use std::alloc::{AllocError, Global};
use std::marker::Model;

// How many LIDs there can be.
const LIDS: usize = 65536;

/// The LIDs in use, ascending: the columns of a table. It is seen as the list of them.
#[derive(Drop)]
pub struct Columns {
    lids: Vec<u16>,
    // for each LID one more than its place, or 0 where it isn't in use
    places: Vec<u16>,
}

impl Model for Columns {
    ghost use Rattle.std.specs.Prelude.{List, ℕ};
    ghost use Rattle.fab_tables.specs.Columns.{AreColumns};

    ghost Value = { List ℕ };

    ghost view = { λ c. c.lids.items };

    ghost invariant = { λ c. AreColumns c.lids.items c.places.items };
}

impl Columns {
    /// The LIDs that a fabric has in use.
    pub fn of(alloc: Global, fabric: &Fabric) -> Result<Columns, AllocError>
        ensures lids { IfOk result (λ c. c ≡ lids_of fabric.now) }
        ensures kept { IfOk result AreLids }
    {
        let in_use = fabric.lids_in_use();
        let mut lids = Vec::with_capacity(alloc, in_use.len())?;
        for lid in in_use {
            lids.push(lid.0)?;
        }
        let places = places_of(alloc, &lids)?;
        Ok(Columns { lids, places })
    }

    /// How many there are.
    pub fn len(&self) -> usize
        ensures count { result ≡ length self.now }
        ensures kept { AreLids self.now }
    {
        self.lids.len()
    }

    /// The place of a LID among them, from 0. It is None where the LID isn't in use.
    pub fn place(&self, lid: Lid) -> Option<usize>
        ensures place { result ≡ index_of lid.0 self.now }
        ensures within { IfSome result (λ place. place < length self.now) }
    {
        usize::from(self.places[usize::from(lid.0)]).checked_sub(1)
    }

    // Whether they are just the LIDs that the fabric has in use.
    pub(crate) fn are_of(&self, fabric: &Fabric) -> bool
        ensures { IsTrue result ↔ (self.now ≡ lids_of fabric.now) }
    {
        let in_use = fabric.lids_in_use();
        if self.lids.len() != in_use.len() {
            return false;
        }
        for (place, lid) in self.lids.iter().enumerate() {
            if in_use[place].0 != *lid {
                return false;
            }
        }
        true
    }

    pub(crate) fn copy(&self, alloc: Global) -> Result<Columns, AllocError>
        ensures { IfOk result (λ c. c ≡ self.now) }
    {
        Ok(Columns {
            lids: Vec::from_slice(alloc, &self.lids)?,
            places: Vec::from_slice(alloc, &self.places)?,
        })
    }
}

fn places_of(alloc: Global, lids: &[u16]) -> Result<Vec<u16>, AllocError>
    requires { AreLids lids.now }
    ensures { IfOk result (λ places. HasPlaces lids.now places.items) }
{
    let mut places = zeros(alloc, LIDS)?;
    for (place, lid) in lids.iter().enumerate() {
        places[usize::from(*lid)] = place as u16 + 1;
    }
    Ok(places)
}

fn zeros(alloc: Global, count: usize) -> Result<Vec<u16>, AllocError>
    ensures count { IfOk result (λ places. length places.items ≡ count) }
    ensures zeros { IfOk result (λ places. All (λ place. place ≡ 0) places.items) }
{
    vec![in alloc; 0; count]
}
