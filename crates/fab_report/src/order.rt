//! The channels with which the delivered routes to one LID begin, each behind that of the next switch.
//!
//! For a LID each switch has one entry, so routes that meet go on together. From each switch that no walk has seen the
//! route is walked to a switch that one has seen, or to its end. Where it is delivered, its channels are laid from the
//! last walked to the first. A walk that comes to a switch of its own goes round, and one that comes to a switch whose
//! route is lost is lost. Time: two steps for each switch; memory: a mark and two channels for each switch.
ghost use Rattle.std.specs.Prelude.{◌≡◌, ◌<◌, [], length, reverse, IfOk, OnOk, MatchBool};
ghost use Rattle.fab_tables.specs.Reaching.{IsToward};
ghost use Rattle.fab_report.specs.Order.{IsWholeOrder, AreInOrder, AreMarks, SeesMore, IsWalked};

use fab_model::{ChannelId, Fabric, Lid, SwitchId};
use fab_tables::{End, Tables, follow};
use std::alloc::{AllocError, Global};

/// What is known of the route from a switch to the LID.
#[derive(Clone, Copy, Drop)]
enum Mark {
    /// Nothing: no walk has come to the switch.
    Unseen,
    /// It isn't delivered, or the walk under way has come to the switch.
    Lost,
    /// It is delivered, and its channels are laid.
    Laid,
}

/// The channels in order, and room for laying them.
#[derive(Drop)]
pub(crate) struct Order {
    pub(crate) channels: Vec<ChannelId>,
    // those of the walk under way
    walked: Vec<ChannelId>,
    // by switch
    marks: Vec<Mark>,
}

impl Order {
    /// No channels, with room for a channel of each switch.
    pub(crate) fn new(alloc: Global, fabric: &Fabric) -> Result<Order, AllocError>
        ensures { IfOk result (λ order. length order.marks.items ≡ length fabric.now.switches) }
    {
        let switches = fabric.switches() as usize;
        Ok(Order {
            channels: Vec::with_capacity(alloc, switches)?,
            walked: Vec::with_capacity(alloc, switches)?,
            marks: vec![in alloc; Mark::Unseen; switches]?,
        })
    }

    /// Lays the channels for a LID, in place of those before.
    pub(crate) fn lay(
        &mut self,
        fabric: &Fabric,
        tables: &Tables,
        lid: Lid,
    ) -> Result<(), AllocError>
        requires toward { IsToward fabric.now tables.now lid.0 }
        requires room { length self.old.marks.items ≡ length fabric.now.switches }
        ensures order { OnOk result (IsWholeOrder fabric.now tables.now lid.0 self.new.channels.items) }
        ensures room { length self.new.marks.items ≡ length fabric.now.switches }
    {
        self.channels.clear();
        self.walked.clear();
        self.marks.fill(Mark::Unseen);
        for s in 0..fabric.switches() {
            if let Mark::Unseen = self.marks[s as usize] {
                self.lay_route(fabric, tables, lid, SwitchId(s))?;
            }
        }
        Ok(())
    }

    /// Lays the channels of the route from a switch, if it is delivered.
    fn lay_route(
        &mut self,
        fabric: &Fabric,
        tables: &Tables,
        lid: Lid,
        from: SwitchId,
    ) -> Result<(), AllocError>
        requires toward { IsToward fabric.now tables.now lid.0 }
        requires switch { from.0 < length fabric.now.switches }
        requires room { length self.old.marks.items ≡ length fabric.now.switches }
        requires none { self.old.walked.items ≡ [] }
        requires order { AreInOrder fabric.now tables.now lid.0 (reverse self.old.channels.items) }
        requires marks { AreMarks fabric.now tables.now lid.0 (reverse self.old.channels.items) [] self.old.marks.items }
        ensures none { OnOk result (self.new.walked.items ≡ []) }
        ensures order { OnOk result (AreInOrder fabric.now tables.now lid.0 (reverse self.new.channels.items)) }
        ensures marks { OnOk result (AreMarks fabric.now tables.now lid.0 (reverse self.new.channels.items) [] self.new.marks.items) }
        ensures seen { OnOk result (SeesMore self.old.marks.items from.0 self.new.marks.items) }
        ensures room { length self.new.marks.items ≡ length fabric.now.switches }
    {
        if self.walk(fabric, tables, lid, from)? {
            while let Some(channel) = self.walked.pop() {
                self.channels.push(channel)?;
                self.marks[fabric.channel(channel).tail.0 as usize] = Mark::Laid;
            }
        } else {
            self.walked.clear();
        }
        Ok(())
    }

    /// Walks the route from a switch, to one that has been seen or to its end. It says whether the route is delivered.
    fn walk(
        &mut self,
        fabric: &Fabric,
        tables: &Tables,
        lid: Lid,
        from: SwitchId,
    ) -> Result<bool, AllocError>
        requires toward { IsToward fabric.now tables.now lid.0 }
        requires switch { from.0 < length fabric.now.switches }
        requires room { length self.old.marks.items ≡ length fabric.now.switches }
        requires none { self.old.walked.items ≡ [] }
        requires marks { AreMarks fabric.now tables.now lid.0 (reverse self.old.channels.items) [] self.old.marks.items }
        ensures walked { IfOk result (λ delivered. MatchBool delivered
            (IsWalked fabric.now tables.now lid.0 from.0 (reverse self.old.channels.items) self.new.walked.items self.new.marks.items)
            (AreMarks fabric.now tables.now lid.0 (reverse self.old.channels.items) [] self.new.marks.items)) }
        ensures seen { IfOk result (λ _. SeesMore self.old.marks.items from.0 self.new.marks.items) }
        ensures order { self.new.channels ≡ self.old.channels }
        ensures room { length self.new.marks.items ≡ length fabric.now.switches }
    {
        let mut at = from.0 as usize;
        self.marks[at] = Mark::Lost;
        let mut route = follow(fabric, tables, from, lid);
        while let Some(channel) = route.next() {
            self.walked.push(channel)?;
            at = fabric.tip(channel).0 as usize;
            match self.marks[at] {
                Mark::Unseen => self.marks[at] = Mark::Lost,
                Mark::Lost => return Ok(false),
                Mark::Laid => return Ok(true),
            }
        }
        match route.end().unwrap() {
            End::Delivered => {
                self.marks[at] = Mark::Laid;
                Ok(true)
            }
            _ => Ok(false),
        }
    }
}
