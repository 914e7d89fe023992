//! A plan whose routes all reach, over its fabric.
//!
//! Of such a plan a switch reaches just the LIDs connected to it, so no route is followed to tell that. Each call takes
//! constant time, and no memory.
ghost use Rattle.std.specs.Prelude.{◌≡◌, ◌<◌, length, map, Contains};
ghost use Rattle.fab_model.specs.declared.rows.Lid.{Lid};
ghost use Rattle.fab_model.specs.Topology.{lids_of};
ghost use Rattle.fab_tables.specs.Certified.{Reaches};
ghost use Rattle.fab_tables.specs.Entries.{entry};
ghost use Rattle.fab_tables.specs.Fit.{EntriesFit};
ghost use Rattle.fab_tables.specs.Route.{route};
ghost use Rattle.fab_export.specs.Reached.{is_reached};
ghost use Rattle.fab_export.specs.Routed.{IsRouted};

use fab_model::{Fabric, Lid, SwitchId};
use fab_tables::{Components, Following, Tables, follow};
use std::marker::Model;

/// Tables whose routes all reach. They are seen as the fabric and the entries.
#[derive(Drop)]
pub(crate) struct Reached<'a> {
    fabric: &'a Fabric,
    tables: &'a Tables,
    components: &'a Components<'a>,
    // the LIDs in use, ascending
    lids: &'a [Lid],
}

impl<'a> Model for Reached<'a> {
    ghost use Rattle.std.specs.Prelude.{◌≡◌, map};
    ghost use Rattle.fab_model.specs.declared.rows.Lid.{Lid};
    ghost use Rattle.fab_model.specs.Topology.{lids_of};
    ghost use Rattle.fab_export.specs.Routed.{Routed, IsRouted};

    ghost Value = { Routed };

    ghost view = { λ r. record { fabric = r.fabric.now; entries = r.tables.now } };

    ghost invariant = { λ r. IsRouted (record { fabric = r.fabric.now; entries = r.tables.now }) × (r.components.now ≡ r.fabric.now)
        × (map (λ (lid : Lid). lid.0) r.lids.now ≡ lids_of r.fabric.now) };
}

impl<'a> Reached<'a> {
    /// Tables over a fabric.
    pub(crate) fn new(
        fabric: &'a Fabric,
        tables: &'a Tables,
        components: &'a Components<'a>,
    ) -> Reached<'a>
        requires tables { EntriesFit fabric.now tables.now }
        requires reaches { Reaches fabric.now tables.now }
        requires components { components.now ≡ fabric.now }
        ensures { result ≡ record { fabric = fabric.now; entries = tables.now } }
    {
        Reached {
            fabric,
            tables,
            components,
            lids: fabric.lids_in_use(),
        }
    }

    /// The fabric.
    pub(crate) fn fabric(&self) -> &Fabric
        ensures fabric { result.now ≡ self.now.fabric }
        ensures kept { IsRouted self.now }
    {
        self.fabric
    }

    /// The LIDs in use, ascending.
    pub(crate) fn lids(&self) -> &[Lid]
        ensures lids { map (λ (lid : Lid). lid.0) result.now ≡ lids_of self.now.fabric }
        ensures kept { IsRouted self.now }
    {
        self.lids
    }

    /// Whether a switch's route to a LID is delivered.
    pub(crate) fn reaches(&self, switch: SwitchId, lid: Lid) -> bool
        requires switch { switch.0 < length self.now.fabric.switches }
        requires lid { Contains (lids_of self.now.fabric) lid.0 }
        ensures { result ≡ is_reached self.now.fabric self.now.entries switch.0 lid.0 }
    {
        match self.fabric.place_of(lid) {
            Some(place) => self.components.are_connected(switch, place.switch),
            None => false,
        }
    }

    /// The port by which a switch forwards to a LID.
    pub(crate) fn port(&self, switch: SwitchId, lid: Lid) -> u8
        requires switch { switch.0 < length self.now.fabric.switches }
        ensures { result ≡ entry self.now.entries switch.0 lid.0 }
    {
        self.tables.get(switch, lid)
    }

    /// Follows a switch's route to a LID.
    pub(crate) fn follow(&self, switch: SwitchId, lid: Lid) -> Following
        requires switch { switch.0 < length self.now.fabric.switches }
        requires lid { Contains (lids_of self.now.fabric) lid.0 }
        ensures { result.channels ≡ (route self.now.fabric self.now.entries switch.0 lid.0).channels }
    {
        follow(self.fabric, self.tables, switch, lid)
    }
}
