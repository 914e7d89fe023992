//! Following a route: from a switch along the channels that the forwarding entries of a LID name, switch by switch,
//! to the LID's place or to an entry by which a packet would be lost. A route that goes along as many channels as
//! there are switches is a loop. A step takes constant time and no memory. Entries are those of InfiniBand's linear
//! forwarding tables.
ghost use Rattle.std.specs.Prelude.{◌≡◌, ◌<◌, length, Contains, false, MatchResult};
ghost use Rattle.fab_model.specs.declared.rows.ChannelId.{ChannelId as Channel};
ghost use Rattle.fab_model.specs.Topology.{lids_of};
ghost use Rattle.fab_model.specs.WellFormed.{IsFabric};
ghost use Rattle.fab_tables.specs.declared.end.End.{End as Ending};
ghost use Rattle.fab_tables.specs.Entries.{entry};
ghost use Rattle.fab_tables.specs.Route.{route, hop_by};
ghost use Rattle.fab_tables.specs.Route.Hop.{Along, Stop};
ghost use Rattle.fab_tables.specs.Ahead.{end_told};
ghost use Rattle.fab_tables.specs.Fit.{EntriesFit};

use crate::end::End;
use crate::tables::Tables;
use fab_model::{ChannelId, Fabric, Lid, Place, SwitchId};
use std::marker::Model;

/// The channels of a route, one after the other. It takes no memory.
#[derive(Drop)]
pub struct Following<'a> {
    fabric: &'a Fabric,
    tables: &'a Tables,
    lid: Lid,
    at: SwitchId,
    // how many channels the route may still go along
    left: u32,
    ended: Option<End>,
}

impl<'a> Model for Following<'a> {
    ghost use Rattle.fab_tables.specs.Ahead.{Ahead, ahead, CanGoOn};

    ghost Value = { Ahead };

    ghost view = { λ f. ahead f.fabric.now f.tables.now f.lid.0 f.at.0 f.left f.ended };

    ghost invariant = { λ f. CanGoOn f.fabric.now f.tables.now f.at.0 };
}

impl<'a> Following<'a> {
    /// How the route ends, once the iterator has answered None.
    pub fn end(&self) -> Option<End>
        ensures { result ≡ end_told self.now }
    {
        self.ended
    }
}

impl<'a> Iterator for Following<'a> {
    type Item = ChannelId;

    ghost use Rattle.std.specs.Iterator.{item_count};
    ghost use Rattle.fab_tables.specs.Ahead.{Ahead, StepsTo};

    ghost next_gives = { StepsTo };

    ghost remaining = { item_count (λ (a : Ahead). a.channels) };

    fn next(&mut self) -> Option<ChannelId> {
        if self.ended.is_some() {
            return None;
        }
        if self.left == 0 {
            self.ended = Some(End::Loop);
            return None;
        }
        match hop(self.fabric, self.tables, self.at, self.lid) {
            Ok(channel) => {
                self.at = self.fabric.tip(channel);
                self.left -= 1;
                Some(channel)
            }
            Err(end) => {
                self.ended = Some(end);
                None
            }
        }
    }
}

/// Follows a LID's entries from a switch: to the place of the LID, to an entry by which a packet would be
/// lost, or along as many channels as there are switches, which is a loop.
pub fn follow<'a>(fabric: &'a Fabric, tables: &'a Tables, from: SwitchId, lid: Lid) -> Following<'a>
    requires fits { EntriesFit fabric.now tables.now }
    requires switch { from.0 < length fabric.now.switches }
    requires in_use { Contains (lids_of fabric.now) lid.0 }
    ensures channels { result.channels ≡ (route fabric.now tables.now from.0 lid.0).channels }
    ensures end { result.end ≡ (route fabric.now tables.now from.0 lid.0).end }
    ensures begins { result.over ≡ false }
    ensures kept { IsFabric fabric.now }
{
    Following {
        fabric,
        tables,
        lid,
        at: from,
        left: fabric.switches(),
        ended: None,
    }
}

// The channel by which packets to a LID leave a switch, or how a route ends there.
fn hop(fabric: &Fabric, tables: &Tables, at: SwitchId, lid: Lid) -> Result<ChannelId, End>
    requires switch { at.0 < tables.now.switches }
    requires of_fabric { at.0 < length fabric.now.switches }
    ensures { MatchResult result
        (λ (c : Channel). hop_by fabric.now lid.0 at.0 (entry tables.now at.0 lid.0) ≡ Along c.0)
        (λ (e : Ending). hop_by fabric.now lid.0 at.0 (entry tables.now at.0 lid.0) ≡ Stop e) }
{
    let port = tables.get(at, lid);
    if port == 255 {
        return Err(End::NoEntry);
    }
    if fabric.place_of(lid) == Some(Place { switch: at, port }) {
        return Err(End::Delivered);
    }
    match fabric.channel_at(at, port) {
        Some(channel) => Ok(channel),
        None if port == 0 || fabric.terminal_at(at, port).is_some() => Err(End::Astray),
        None => Err(End::DeadPort),
    }
}
