//! The heads of blocks: each opens its block, once for a switch.
//!
//! A head costs the look-up of its switch by GUID. That of a table block or a levels block also clears a mark
//! for each LID in use.
ghost use Rattle.std.specs.Prelude.{◌≡◌, ◌<◌, ℕ, length, is_some, if◌then◌else◌, option_and_then, None, Some, [], ◌∷◌};
ghost use Rattle.fab_model.specs.Topology.{switch_of};
ghost use Rattle.fab_dump.specs.declared.fault.PlanFault.TheVariants.{BadRow, TwiceBlock, BadLevelRow, BadLaneRow};
ghost use Rattle.fab_dump.specs.declared.form.Block.TheVariants.{Levels, MapRow, Numbers};
ghost use Rattle.fab_dump.specs.Given.Given.{LevelBlock, MapBlock, Certificate};
ghost use Rattle.fab_dump.specs.Lines.Next.{Fails};
ghost use Rattle.fab_dump.specs.Lines.{adds, a_source, head_guid, levels_head, map_head, opens, table_guid, table_head, table_of, plan_line};
ghost use Rattle.fab_dump.specs.Standing.{ReaderFits, ReadsAs};

use crate::PlanFault;
use crate::form::Block;
use crate::line_kind::{LEVELS_HEAD, MAP_HEAD};
use crate::reader::PlanReader;
use crate::rows::{head_switch, table_guid};
use fab_model::SwitchId;

impl<'f> PlanReader<'f> {
    fn has_lanes(&self) -> bool
        ensures { result ≡ is_some self.now.plan.lanes }
    {
        self.plan.lanes.is_some()
    }

    /// Opens the table block of a switch.
    fn open_table(&mut self, line: u32, switch: SwitchId) -> Result<(), PlanFault>
        requires fits { ReaderFits self.old }
        requires switch { switch.0 < length self.old.fabric.now.switches }
        ensures { ReadsAs self.old self.new result (λ _ f s. table_of f line s (Some switch.0)) }
    {
        let number = switch.0 as usize;
        if self.table_blocks[number] {
            return Err(PlanFault::TwiceBlock { line });
        }
        self.table_blocks[number] = true;
        self.lids_read.fill(false);
        self.block = Block::Table(Some(switch));
        Ok(())
    }

    /// Reads the head of a table block.
    pub(crate) fn table_head(&mut self, line: u32, bytes: &[u8]) -> Result<(), PlanFault>
        requires fits { ReaderFits self.old }
        ensures { ReadsAs self.old self.new result (λ t f s. table_head t f line s (table_guid bytes.now)) }
    {
        let Some(guid) = table_guid(bytes) else {
            return Err(PlanFault::BadRow { line });
        };
        if let Some(switch) = self.fabric.switch_of(guid) {
            return self.open_table(line, switch);
        }
        if !self.version.says_one_lid() {
            return Err(PlanFault::BadRow { line });
        }
        self.block = Block::Table(None);
        Ok(())
    }

    /// Opens the levels block of a switch.
    fn open_levels(&mut self, line: u32, switch: SwitchId) -> Result<(), PlanFault>
        requires fits { ReaderFits self.old }
        requires switch { switch.0 < length self.old.fabric.now.switches }
        ensures { ReadsAs self.old self.new result (λ _ _ s. opens (BadLevelRow line) (TwiceBlock line) s Levels LevelBlock (Some switch.0)) }
    {
        let number = switch.0 as usize;
        if self.level_blocks[number] {
            return Err(PlanFault::TwiceBlock { line });
        }
        self.level_blocks[number] = true;
        self.lids_read.fill(false);
        self.block = Block::Levels(switch);
        Ok(())
    }

    /// Reads the head of a levels block.
    pub(crate) fn levels_head(&mut self, line: u32, bytes: &[u8]) -> Result<(), PlanFault>
        requires fits { ReaderFits self.old }
        ensures { ReadsAs self.old self.new result (λ t f s. if is_some f.count then opens (BadLevelRow line) (TwiceBlock line) s Levels LevelBlock (a_source t (option_and_then (switch_of t) (head_guid levels_head bytes.now)))
            else Fails (BadRow line)) }
    {
        if !self.has_lanes() {
            return Err(PlanFault::BadRow { line });
        }
        let Some(switch) = head_switch(self.fabric, LEVELS_HEAD, bytes) else {
            return Err(PlanFault::BadLevelRow { line });
        };
        if !self.fabric.has_terminal(switch) {
            return Err(PlanFault::BadLevelRow { line });
        }
        self.open_levels(line, switch)
    }

    /// Opens the lane map of a switch.
    fn open_map(&mut self, line: u32, switch: SwitchId) -> Result<(), PlanFault>
        requires fits { ReaderFits self.old }
        requires switch { switch.0 < length self.old.fabric.now.switches }
        ensures { ReadsAs self.old self.new result (λ _ _ s. opens (BadLaneRow line) (TwiceBlock line) s MapRow MapBlock (Some switch.0)) }
    {
        let number = switch.0 as usize;
        if self.map_blocks[number] {
            return Err(PlanFault::TwiceBlock { line });
        }
        self.map_blocks[number] = true;
        self.block = Block::MapRow(switch);
        Ok(())
    }

    /// Reads the head of a lane map.
    pub(crate) fn map_head(&mut self, line: u32, bytes: &[u8]) -> Result<(), PlanFault>
        requires fits { ReaderFits self.old }
        ensures { ReadsAs self.old self.new result (λ t f s. if is_some f.count then opens (BadLaneRow line) (TwiceBlock line) s MapRow MapBlock (option_and_then (switch_of t) (head_guid map_head bytes.now))
            else Fails (BadRow line)) }
    {
        if !self.has_lanes() {
            return Err(PlanFault::BadRow { line });
        }
        match head_switch(self.fabric, MAP_HEAD, bytes) {
            Some(switch) => self.open_map(line, switch),
            None => Err(PlanFault::BadLaneRow { line }),
        }
    }

    /// Reads the head of the certificate.
    pub(crate) fn certificate_head(&mut self, line: u32) -> Result<(), PlanFault>
        requires fits { ReaderFits self.old }
        ensures { ReadsAs self.old self.new result (λ _ f s. if is_some f.count then adds (TwiceBlock line) s Numbers (Certificate ∷ []) else Fails (BadRow line)) }
    {
        if !self.has_lanes() {
            return Err(PlanFault::BadRow { line });
        }
        if self.certificate {
            return Err(PlanFault::TwiceBlock { line });
        }
        self.certificate = true;
        self.block = Block::Numbers;
        Ok(())
    }
}
