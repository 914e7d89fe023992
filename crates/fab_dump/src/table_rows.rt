//! The rows of table blocks: the port by which a switch forwards to one LID, in plain dumps and in version 1,
//! or to each of up to 64.
//!
//! A row costs its bytes.
ghost use Rattle.std.specs.Prelude.{◌≡◌, ◌+◌, ◌<◌, ◌≤◌, ℕ, ◌++◌, ◌∷◌, [], slice_get, slice_index_or, drop, length, MatchOption, IfSome, None, Some};
ghost use Rattle.std.specs.List.{zip};
ghost use Rattle.fab_text.specs.Fields.{fields, dec};
ghost use Rattle.fab_model.specs.Topology.{Topology, lids_of, switch_id};
ghost use Rattle.fab_dump.specs.FieldsLeft.{AreRowLids};
ghost use Rattle.fab_dump.specs.Given.{said_of};
ghost use Rattle.fab_dump.specs.Given.Given.{Port};
ghost use Rattle.fab_dump.specs.Lines.{Form, State, long_row, long_table_row, row_lids, short_table_row, table_row};
ghost use Rattle.fab_dump.specs.Standing.{ReaderFits, Stands, ReadsAs};

use crate::PlanFault;
use crate::fields::Fields;
use crate::form::Block;
use crate::reader::PlanReader;
use crate::rows::{ROW_LIDS, lid_in, ports_left, table_row};
use crate::statements::give_port;
use fab_model::{Lid, SwitchId};

impl<'f> PlanReader<'f> {
    /// Reads a table row of one LID.
    pub(crate) fn short_table_row(
        &mut self,
        line: u32,
        switch: SwitchId,
        bytes: &[u8],
    ) -> Result<(), PlanFault>
        requires fits { ReaderFits self.old }
        requires block { self.old.block ≡ Block.Table (Some switch) }
        ensures { ReadsAs self.old self.new result (λ t _ s. short_table_row t line s switch.0 (table_row (fields bytes.now))) }
    {
        let Some((lid, port)) = table_row(bytes) else {
            return Err(PlanFault::BadRow { line });
        };
        let Some(place) = self.lids.place(Lid(lid)) else {
            return Ok(());
        };
        if self.lids_read[place] {
            return Err(PlanFault::TwiceRow { line });
        }
        self.lids_read[place] = true;
        give_port(&mut self.plan, switch, Lid(lid), port);
        Ok(())
    }

    /// The place of the first LID of a row of up to 64 LIDs, and how many LIDs it has.
    pub(crate) fn row_at(&self, fields: &mut Fields) -> Option<(usize, usize)>
        ensures row { MatchOption result (row_lids self.now.lids fields.old ≡ []) (λ place. AreRowLids self.now.lids place (row_lids self.now.lids fields.old)) }
        ensures rest { IfSome result (λ _. fields.new ≡ drop 1 fields.old) }
    {
        let lid = lid_in(fields.next()?)?;
        let first = self.lids.place(Lid(lid))?;
        if first % ROW_LIDS != 0 {
            return None;
        }
        Some((first, (self.lids.len() - first).min(ROW_LIDS)))
    }

    /// Gives a switch this port for the LID at a place.
    fn set_port(&mut self, switch: SwitchId, place: usize, port: u8)
        requires fits { ReaderFits self.old }
        requires block { self.old.block ≡ Block.Table (Some switch) }
        requires within { place < length (lids_of self.old.fabric.now) }
        ensures fits { ReaderFits self.new }
        ensures fabric { self.new.fabric.now ≡ self.old.fabric.now }
        ensures block { self.new.block ≡ Block.Table (Some switch) }
        ensures stands { (t : Topology) (f : Form) (s : State) (lid : ℕ) → slice_get (lids_of t) place ≡ Some lid → Stands t f s self.old → Stands t f
            (record { open_block = Block.Table (Some (switch_id switch.0)); given = s.given ++ Port switch.0 lid port ∷ [] }) self.new }
    {
        let lid = self.fabric.lids_in_use()[place];
        self.lids_read[place] = true;
        give_port(&mut self.plan, switch, lid, port);
    }

    /// Gives a switch these ports for the LIDs from a place on.
    fn set_ports(&mut self, switch: SwitchId, first: usize, ports: &[u8])
        requires fits { ReaderFits self.old }
        requires block { self.old.block ≡ Block.Table (Some switch) }
        requires within { first + length ports.now ≤ length (lids_of self.old.fabric.now) }
        ensures { (f : Form) (s : State) → Stands self.old.fabric.now f s self.old → Stands self.old.fabric.now f
            (record { open_block = Block.Table (Some (switch_id switch.0)); given = s.given ++ said_of (Port switch.0) (zip (drop first (lids_of self.old.fabric.now)) ports.now) }) self.new }
    {
        for (index, port) in ports.iter().enumerate() {
            self.set_port(switch, first + index, *port);
        }
    }

    /// Reads a table row of up to 64 LIDs.
    pub(crate) fn long_table_row(
        &mut self,
        line: u32,
        switch: SwitchId,
        bytes: &[u8],
    ) -> Result<(), PlanFault>
        requires fits { ReaderFits self.old }
        requires block { self.old.block ≡ Block.Table (Some switch) }
        ensures { ReadsAs self.old self.new result (λ t _ s. long_table_row line s switch.0 (long_row (lids_of t) (dec 3 255) (fields bytes.now))) }
    {
        let mut fields = Fields::of(bytes);
        let Some((first, count)) = self.row_at(&mut fields) else {
            return Err(PlanFault::BadRow { line });
        };
        let Some(ports) = ports_left(&mut fields, count) else {
            return Err(PlanFault::BadRow { line });
        };
        if self.lids_read[first] {
            return Err(PlanFault::TwiceRow { line });
        }
        self.set_ports(switch, first, &ports[..count]);
        Ok(())
    }
}
