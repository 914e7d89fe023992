//! The reader of a plan text, line by line: what was read so far, and what one more line says.
//!
//! It stands for the statements of the lines so far (`Stands` in `specs/Standing.antt`): the plan that they
//! make, the block that is open, and marks of the switches and LIDs that they speak of, so that nothing is
//! said twice. It takes the plan, three marks for each switch and one for each LID in use.
ghost use Rattle.std.specs.Prelude.{◌≡◌, ◌<◌, ◌≤◌, ℕ, length, IfOk, IfSome, MatchResult, None, Some, Ok, Err};
ghost use Rattle.fab_text.specs.Fields.{fields};
ghost use Rattle.fab_model.specs.WellFormed.{IsFabric};
ghost use Rattle.fab_dump.specs.Given.{empty_plan};
ghost use Rattle.fab_dump.specs.Lines.{row_in, strange_row, table_row, dump_line, plan_line, waiting_line, line_says, kind_of};
ghost use Rattle.fab_dump.specs.Reading.{nothing_read};
ghost use Rattle.fab_dump.specs.Standing.{ReaderFits, Stands, ReadsAs, ReadsStepAs};

use crate::PlanFault;
use crate::form::{Block, Step, Version};
use crate::line_kind::{LineKind, kind_of};
use crate::rows::table_row;
use fab_model::{Fabric, SwitchId};
use fab_tables::{Columns, Lanes, Plan, Tables};
use std::alloc::{AllocError, Global};

/// What was read of a text so far.
#[derive(Drop)]
pub(crate) struct PlanReader<'f> {
    pub(crate) fabric: &'f Fabric,
    pub(crate) version: Version,
    pub(crate) plan: Plan,
    pub(crate) block: Block,
    pub(crate) lids: Columns,
    // the switches whose table block, levels block or lane map was opened
    pub(crate) table_blocks: Vec<bool>,
    pub(crate) level_blocks: Vec<bool>,
    pub(crate) map_blocks: Vec<bool>,
    // the certificate was opened
    pub(crate) certificate: bool,
    // by the places of the LIDs in use: whether a row of the open block told of the LID
    pub(crate) lids_read: Vec<bool>,
}

/// The text goes on behind the line that was read.
fn goes(read: Result<(), PlanFault>) -> Result<Step, PlanFault>
    ensures { MatchResult read (λ _. result ≡ Ok Step.Goes) (λ why. result ≡ Err why) }
{
    match read {
        Ok(()) => Ok(Step::Goes),
        Err(why) => Err(why),
    }
}

/// A plan of which nothing was said.
fn empty_plan(alloc: Global, fabric: &Fabric, count: Option<u8>) -> Result<Plan, AllocError>
    requires { IfSome count (λ n. (0 < n) × (n ≤ 15)) }
    ensures { IfOk result (λ plan. plan ≡ empty_plan fabric.now count) }
{
    Ok(Plan {
        tables: Tables::new(alloc, fabric)?,
        lanes: match count {
            Some(count) => Some(Lanes::new(alloc, fabric, count)?),
            None => None,
        },
    })
}

impl<'f> PlanReader<'f> {
    /// Nothing was read yet.
    pub(crate) fn new(
        alloc: Global,
        fabric: &'f Fabric,
        version: Version,
        count: Option<u8>,
    ) -> Result<PlanReader<'f>, AllocError>
        requires { IfSome count (λ n. (0 < n) × (n ≤ 15)) }
        ensures stands { IfOk result (Stands fabric.now (record { version = version; count = count }) nothing_read) }
    {
        let lids = Columns::of(alloc, fabric)?;
        let switches = fabric.switches() as usize;
        let places = lids.len();
        Ok(PlanReader {
            fabric,
            version,
            plan: empty_plan(alloc, fabric, count)?,
            block: Block::Nothing,
            lids,
            table_blocks: vec![in alloc; false; switches]?,
            level_blocks: vec![in alloc; false; switches]?,
            map_blocks: vec![in alloc; false; switches]?,
            certificate: false,
            lids_read: vec![in alloc; false; places]?,
        })
    }

    /// The plan that was said so far.
    pub(crate) fn into_plan(self) -> Plan
        ensures { result ≡ self.entry.plan }
    {
        self.plan
    }

    /// Reads a line that begins as a row does.
    fn row(&mut self, line: u32, bytes: &[u8]) -> Result<(), PlanFault>
        requires fits { ReaderFits self.old }
        ensures { ReadsAs self.old self.new result (λ t f s. row_in t f line s s.open_block bytes.now) }
    {
        let one_lid = self.version.says_one_lid();
        match self.block {
            Block::Table(Some(switch)) => {
                if one_lid {
                    self.short_table_row(line, switch, bytes)
                } else {
                    self.long_table_row(line, switch, bytes)
                }
            }
            Block::Table(None) => match table_row(bytes) {
                Some(_) => Ok(()),
                None => Err(PlanFault::BadRow { line }),
            },
            Block::Levels(switch) => {
                if one_lid {
                    self.short_level_row(line, switch, bytes)
                } else {
                    self.long_level_row(line, switch, bytes)
                }
            }
            Block::Numbers => self.number_row(line, bytes),
            Block::Nothing | Block::MapRow(_) | Block::Pairs(_) => Err(PlanFault::BadRow { line }),
        }
    }

    /// Reads a line of a plain dump.
    fn dump_line(&mut self, line: u32, bytes: &[u8]) -> Result<(), PlanFault>
        requires fits { ReaderFits self.old }
        ensures { ReadsAs self.old self.new result (λ t f s. dump_line t f line s bytes.now (kind_of bytes.now)) }
    {
        match kind_of(bytes) {
            LineKind::TableHead => self.table_head(line, bytes),
            LineKind::Row => self.row(line, bytes),
            _ => Ok(()),
        }
    }

    /// Reads a line of a plan where no lane map waits for its row.
    fn plan_line(&mut self, line: u32, bytes: &[u8]) -> Result<Step, PlanFault>
        requires fits { ReaderFits self.old }
        ensures { ReadsStepAs self.old self.new result (λ t f s. plan_line t f line s bytes.now (kind_of bytes.now)) }
    {
        match kind_of(bytes) {
            LineKind::Comment => Ok(Step::Goes),
            LineKind::TableHead => goes(self.table_head(line, bytes)),
            LineKind::Row => goes(self.row(line, bytes)),
            LineKind::LevelsHead => goes(self.levels_head(line, bytes)),
            LineKind::MapHead => goes(self.map_head(line, bytes)),
            LineKind::CertificateHead => goes(self.certificate_head(line)),
            LineKind::PairLine => goes(self.pair_line(line, bytes)),
            LineKind::EndPlan => Ok(Step::Ends),
            LineKind::Other => Err(PlanFault::BadRow { line }),
        }
    }

    /// Reads a line where a lane map waits for its row.
    fn waiting_line(&mut self, line: u32, switch: SwitchId, bytes: &[u8]) -> Result<(), PlanFault>
        requires fits { ReaderFits self.old }
        requires block { self.old.block ≡ Block.MapRow switch }
        ensures { ReadsAs self.old self.new result (λ _ f s. waiting_line f line s switch.0 bytes.now (kind_of bytes.now)) }
    {
        match kind_of(bytes) {
            LineKind::Comment => Ok(()),
            _ => self.map_row(line, switch, bytes),
        }
    }

    /// Reads a line.
    pub(crate) fn line(&mut self, line: u32, bytes: &[u8]) -> Result<Step, PlanFault>
        requires fits { ReaderFits self.old }
        ensures { ReadsStepAs self.old self.new result (λ t f s. line_says t f line s bytes.now) }
    {
        if self.version.is_dump() {
            return goes(self.dump_line(line, bytes));
        }
        match self.block {
            Block::MapRow(switch) => goes(self.waiting_line(line, switch, bytes)),
            _ => self.plan_line(line, bytes),
        }
    }
}
