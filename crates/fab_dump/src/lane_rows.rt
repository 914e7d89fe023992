//! The rows of lane maps, of pairs of ports and of the certificate.
//!
//! A row costs its bytes, and a number row also the look-ups of its switch by GUID and of its channel by port.
//! The map of a pair moves those of later pairs.
ghost use Rattle.std.specs.Prelude.{◌≡◌, ◌<◌, ℕ, length, not, IfSome, ◌==◌};
ghost use Rattle.fab_text.specs.Fields.{fields};
ghost use Rattle.fab_tables.specs.LaneTables.{number};
ghost use Rattle.fab_dump.specs.Lines.{adds_number, adds_pair, lanes_read, map_row, number_row, pair_in, pair_row};
ghost use Rattle.fab_dump.specs.Standing.{ReaderFits, ReadsAs};

use crate::PlanFault;
use crate::form::Block;
use crate::reader::PlanReader;
use crate::rows::{lanes_in, number_row, pair_row};
use crate::statements::{give_map, give_number, give_pair};
use fab_model::{ChannelId, SwitchId};
use fab_tables::{PairFault, Plan};

/// Whether a channel's data lane has a number.
fn has_number(plan: &Plan, channel: ChannelId, lane: u8) -> bool
    requires channel { IfSome plan.now.lanes (λ l. channel.0 < l.channels) }
    requires lane { lane < 15 }
    ensures { IfSome plan.now.lanes (λ l. result ≡ not (number l channel.0 lane == 0)) }
{
    match &plan.lanes {
        Some(lanes) => lanes.number(channel, lane) != 0,
        None => false,
    }
}

impl<'f> PlanReader<'f> {
    /// Reads the row of a lane map.
    pub(crate) fn map_row(
        &mut self,
        line: u32,
        switch: SwitchId,
        bytes: &[u8],
    ) -> Result<(), PlanFault>
        requires fits { ReaderFits self.old }
        requires block { self.old.block ≡ Block.MapRow switch }
        ensures { ReadsAs self.old self.new result (λ _ f s. map_row f line s switch.0 (lanes_read (fields bytes.now))) }
    {
        let Some(map) = lanes_in(bytes) else {
            return Err(PlanFault::BadLaneRow { line });
        };
        give_map(&mut self.plan, switch, &map);
        self.block = if self.version.has_pairs() {
            Block::Pairs(switch)
        } else {
            Block::Nothing
        };
        Ok(())
    }

    /// Reads the map of a pair of ports of a switch.
    fn pair_row(&mut self, line: u32, switch: SwitchId, bytes: &[u8]) -> Result<(), PlanFault>
        requires fits { ReaderFits self.old }
        requires block { self.old.block ≡ Block.Pairs switch }
        ensures { ReadsAs self.old self.new result (λ t _ s. adds_pair line s switch.0 (pair_row t switch.0 (fields bytes.now))) }
    {
        let Some(row) = pair_row(self.fabric, switch, bytes) else {
            return Err(PlanFault::BadLaneRow { line });
        };
        match give_pair(&mut self.plan, row) {
            Ok(true) => Ok(()),
            Ok(false) => Err(PlanFault::TwiceRow { line }),
            Err(PairFault::TooMany) => Err(PlanFault::TooManyPairs { line }),
            Err(PairFault::Memory(fault)) => Err(PlanFault::Memory(fault)),
        }
    }

    /// Reads a line that begins as the map of a pair of ports does.
    pub(crate) fn pair_line(&mut self, line: u32, bytes: &[u8]) -> Result<(), PlanFault>
        requires fits { ReaderFits self.old }
        ensures { ReadsAs self.old self.new result (λ t _ s. pair_in t line s s.open_block bytes.now) }
    {
        match self.block {
            Block::Pairs(switch) => self.pair_row(line, switch, bytes),
            _ => Err(PlanFault::BadRow { line }),
        }
    }

    /// Reads a row of the certificate.
    pub(crate) fn number_row(&mut self, line: u32, bytes: &[u8]) -> Result<(), PlanFault>
        requires fits { ReaderFits self.old }
        requires block { self.old.block ≡ Block.Numbers }
        ensures { ReadsAs self.old self.new result (λ t _ s. adds_number line s (number_row t (fields bytes.now))) }
    {
        let Some((channel, lane, number)) = number_row(self.fabric, bytes) else {
            return Err(PlanFault::BadNumber { line });
        };
        if has_number(&self.plan, channel, lane) {
            return Err(PlanFault::TwiceRow { line });
        }
        give_number(&mut self.plan, channel, lane, number);
        Ok(())
    }
}
