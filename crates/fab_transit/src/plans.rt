//! The two plans of a change, both read with lanes. A plan without lanes is read with one lane, on which level 0
//! goes, and with level 0 everywhere.
//!
//! Each call takes constant time, and no memory; a lane takes the logarithm of the count of pairs of ports that
//! have a map.
ghost use Rattle.std.specs.Prelude.{◌≡◌, ◌*◌, ◌<◌, ◌≤◌, [], false, length, Contains, MatchResult};
ghost use Rattle.fab_model.specs.declared.rows.ChannelId.{ChannelId as Channel};
ghost use Rattle.fab_model.specs.Topology.{lids_of};
ghost use Rattle.fab_tables.specs.declared.end.End.{End as Ending};
ghost use Rattle.fab_tables.specs.Fit.{PlanFits};
ghost use Rattle.fab_tables.specs.Route.Hop.{Along, Stop};
ghost use Rattle.fab_tables.specs.Reading.{count_read, level_read};
ghost use Rattle.fab_transit.specs.MixedWalks.{plan_of as chosen, bound as lane_bound, hop_of, lane_along};
ghost use Rattle.fab_transit.specs.Changing.{IsChanging, standing_of};
ghost use Rattle.fab_transit.specs.Standing.{HasNoPairs, pairs_read};

use crate::mixed::Side;
use fab_model::{ChannelId, Fabric, Lid, SwitchId};
use fab_tables::{End, Plan, Start, follow};
use std::marker::Model;

/// The two plans of a change over a fabric. It is seen as the fabric and the plans.
#[derive(Drop)]
pub(crate) struct Plans<'a> {
    fabric: &'a Fabric,
    old: &'a Plan,
    new: &'a Plan,
    // the greater of the two lane counts
    bound: u8,
    // how many virtual channels there are on lanes below it
    virtual_channels: u32,
}

impl<'a> Model for Plans<'a> {
    ghost use Rattle.std.specs.Prelude.{◌≡◌, ◌*◌, length};
    ghost use Rattle.fab_transit.specs.MixedWalks.{bound as lane_bound};
    ghost use Rattle.fab_transit.specs.Changing.{Changing, IsChanging};

    ghost Value = { Changing };

    ghost view = { λ p. record { fabric = p.fabric.now; change = record { before = p.old.now; after = p.new.now } } };

    ghost invariant = { λ p. IsChanging (record { fabric = p.fabric.now; change = record { before = p.old.now; after = p.new.now } })
        × (p.bound ≡ lane_bound (record { before = p.old.now; after = p.new.now }))
        × (p.virtual_channels ≡ length p.fabric.now.channels * lane_bound (record { before = p.old.now; after = p.new.now })) };
}

impl<'a> Plans<'a> {
    /// The change from the old plan to the new one.
    pub(crate) fn new(fabric: &'a Fabric, old: &'a Plan, new: &'a Plan) -> Plans<'a>
        requires old { PlanFits fabric.now old.now }
        requires new { PlanFits fabric.now new.now }
        ensures { result ≡ record { fabric = fabric.now; change = record { before = old.now; after = new.now } } }
    {
        let bound = lane_count(old).max(lane_count(new));
        Plans {
            fabric,
            old,
            new,
            bound,
            virtual_channels: fabric.channels() * u32::from(bound),
        }
    }

    /// The fabric of both plans.
    pub(crate) fn fabric(&self) -> &Fabric
        ensures fabric { result.now ≡ self.now.fabric }
        ensures kept { IsChanging self.now }
    {
        self.fabric
    }

    /// The greater of the two lane counts: lanes are good below it.
    pub(crate) fn bound(&self) -> u8
        ensures bound { result ≡ lane_bound self.now.change }
        ensures few { result ≤ 15 }
    {
        self.bound
    }

    /// How many virtual channels there are on good lanes.
    pub(crate) fn virtual_channels(&self) -> u32
        ensures { result ≡ length self.now.fabric.channels * lane_bound self.now.change }
    {
        self.virtual_channels
    }

    /// The level of a source for a LID connected to it.
    pub(crate) fn level(&self, side: Side, source: SwitchId, lid: Lid) -> Option<u8>
        requires { source.0 < length self.now.fabric.switches }
        ensures { result ≡ level_read (chosen self.now.change side).lanes source.0 lid.0 }
    {
        match &self.plan(side).lanes {
            Some(lanes) => lanes.level(source, lid),
            None => Some(0),
        }
    }

    /// Whether a plan has a map for a pair of ports. Without, lanes do not depend on the port by which a packet came.
    pub(crate) fn have_pairs(&self) -> bool
        ensures { result ≡ false → HasNoPairs self.now.change }
    {
        has_pairs(self.old) || has_pairs(self.new)
    }

    /// The channel along which a plan's entry sends packets to a LID, or how a route ends at the switch.
    pub(crate) fn hop(&self, side: Side, at: SwitchId, lid: Lid) -> Result<ChannelId, End>
        requires switch { at.0 < length self.now.fabric.switches }
        requires in_use { Contains (lids_of self.now.fabric) lid.0 }
        ensures { MatchResult result
            (λ (c : Channel). hop_of self.now.fabric self.now.change lid.0 side at.0 ≡ Along c.0)
            (λ (e : Ending). hop_of self.now.fabric self.now.change lid.0 side at.0 ≡ Stop e) }
    {
        let mut route = follow(self.fabric, &self.plan(side).tables, at, lid);
        match route.next() {
            Some(channel) => Ok(channel),
            None => Err(route.end().unwrap()),
        }
    }

    /// The lane that a plan's map gives a level on the way along a channel.
    pub(crate) fn lane(&self, side: Side, here: Start, channel: ChannelId, level: u8) -> u8
        requires channel { channel.0 < length self.now.fabric.channels }
        requires switch { here.switch.0 < length self.now.fabric.switches }
        requires level { level < 16 }
        ensures { result ≡ lane_along self.now.fabric self.now.change side level (standing_of here) channel.0 }
    {
        let to_port = self.fabric.channel(channel).port;
        match &self.plan(side).lanes {
            Some(lanes) => lanes.lane_at(here.switch, here.port, to_port, level),
            None if level == 0 => 0,
            None => 15,
        }
    }

    fn plan(&self, side: Side) -> &Plan
        ensures plan { result.now ≡ chosen self.now.change side }
        ensures fits { PlanFits self.now.fabric result.now }
    {
        match side {
            Side::Old => self.old,
            Side::New => self.new,
        }
    }
}

/// With how many lanes a plan is read.
fn lane_count(plan: &Plan) -> u8
    ensures { result ≡ count_read plan.now.lanes }
{
    match &plan.lanes {
        Some(lanes) => lanes.count(),
        None => 1,
    }
}

/// Whether a plan has a map for a pair of ports.
fn has_pairs(plan: &Plan) -> bool
    ensures { result ≡ false → pairs_read plan.now.lanes ≡ [] }
{
    match &plan.lanes {
        Some(lanes) => lanes.pairs() > 0,
        None => false,
    }
}
