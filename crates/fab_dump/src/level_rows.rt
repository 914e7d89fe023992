//! The rows of levels blocks: the service level of a source for one LID, in version 1, or for up to 64.
//!
//! A row costs its bytes.
ghost use Rattle.std.specs.Prelude.{◌≡◌, ◌+◌, ◌<◌, ◌≤◌, ℕ, ◌++◌, ◌∷◌, [], slice_get, slice_index_or, drop, length, IfSome, None, Some};
ghost use Rattle.std.specs.List.{zip};
ghost use Rattle.fab_text.specs.Fields.{fields};
ghost use Rattle.fab_model.specs.Topology.{Topology, lids_of, switch_id};
ghost use Rattle.fab_dump.specs.Given.{said_of};
ghost use Rattle.fab_dump.specs.Given.Given.{Level};
ghost use Rattle.fab_dump.specs.Lines.{Form, State, level_field, long_row, long_level_row, short_level_row, level_row};
ghost use Rattle.fab_dump.specs.Standing.{ReaderFits, Stands, ReadsAs};

use crate::PlanFault;
use crate::fields::Fields;
use crate::form::Block;
use crate::reader::PlanReader;
use crate::rows::{level_row, levels_left};
use crate::statements::give_level;
use fab_model::{Lid, SwitchId};

impl<'f> PlanReader<'f> {
    /// Reads a level row of one LID.
    pub(crate) fn short_level_row(
        &mut self,
        line: u32,
        switch: SwitchId,
        bytes: &[u8],
    ) -> Result<(), PlanFault>
        requires fits { ReaderFits self.old }
        requires block { self.old.block ≡ Block.Levels switch }
        ensures { ReadsAs self.old self.new result (λ t _ s. short_level_row t line s switch.0 (level_row (fields bytes.now))) }
    {
        let Some((lid, level)) = level_row(bytes) else {
            return Err(PlanFault::BadLevelRow { line });
        };
        let Some(place) = self.lids.place(Lid(lid)) else {
            return Err(PlanFault::BadLevelRow { line });
        };
        if self.lids_read[place] {
            return Err(PlanFault::TwiceRow { line });
        }
        self.lids_read[place] = true;
        give_level(&mut self.plan, switch, Lid(lid), level);
        Ok(())
    }

    /// Gives a switch this level for the LID at a place.
    fn set_level(&mut self, switch: SwitchId, place: usize, level: Option<u8>)
        requires fits { ReaderFits self.old }
        requires block { self.old.block ≡ Block.Levels switch }
        requires within { place < length (lids_of self.old.fabric.now) }
        requires level { IfSome level (λ n. n < 16) }
        ensures fits { ReaderFits self.new }
        ensures fabric { self.new.fabric.now ≡ self.old.fabric.now }
        ensures block { self.new.block ≡ Block.Levels switch }
        ensures stands { (t : Topology) (f : Form) (s : State) (lid : ℕ) → slice_get (lids_of t) place ≡ Some lid → Stands t f s self.old → Stands t f
            (record { open_block = Block.Levels (switch_id switch.0); given = s.given ++ Level switch.0 lid level ∷ [] }) self.new }
    {
        let lid = self.fabric.lids_in_use()[place];
        self.lids_read[place] = true;
        give_level(&mut self.plan, switch, lid, level);
    }

    /// Gives a switch these levels for the LIDs from a place on.
    fn set_levels(&mut self, switch: SwitchId, first: usize, levels: &[Option<u8>])
        requires fits { ReaderFits self.old }
        requires block { self.old.block ≡ Block.Levels switch }
        requires within { first + length levels.now ≤ length (lids_of self.old.fabric.now) }
        requires levels { (k : ℕ) → k < length levels.now → IfSome (slice_index_or levels.now k None) (λ n. n < 16) }
        ensures { (f : Form) (s : State) → Stands self.old.fabric.now f s self.old → Stands self.old.fabric.now f
            (record { open_block = Block.Levels (switch_id switch.0); given = s.given ++ said_of (Level switch.0) (zip (drop first (lids_of self.old.fabric.now)) levels.now) }) self.new }
    {
        for (index, level) in levels.iter().enumerate() {
            self.set_level(switch, first + index, *level);
        }
    }

    /// Reads a level row of up to 64 LIDs.
    pub(crate) fn long_level_row(
        &mut self,
        line: u32,
        switch: SwitchId,
        bytes: &[u8],
    ) -> Result<(), PlanFault>
        requires fits { ReaderFits self.old }
        requires block { self.old.block ≡ Block.Levels switch }
        ensures { ReadsAs self.old self.new result (λ t _ s. long_level_row line s switch.0 (long_row (lids_of t) level_field (fields bytes.now))) }
    {
        let mut fields = Fields::of(bytes);
        let Some((first, count)) = self.row_at(&mut fields) else {
            return Err(PlanFault::BadLevelRow { line });
        };
        let Some(levels) = levels_left(&mut fields, count) else {
            return Err(PlanFault::BadLevelRow { line });
        };
        if self.lids_read[first] {
            return Err(PlanFault::TwiceRow { line });
        }
        self.set_levels(switch, first, &levels[..count]);
        Ok(())
    }
}
