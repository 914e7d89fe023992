//! Port GUIDs of LIDs: the switch's where the LID is its own, else the terminal's.
//!
//! A port GUID is found by the place of its LID, in constant time; no memory.
ghost use Rattle.std.specs.Prelude.{◌≡◌};
ghost use Rattle.fab_model.specs.WellFormed.{IsFabric};
ghost use Rattle.fab_export.specs.PortGuids.{port_guid};

use fab_model::{Fabric, Lid};

/// The port GUID of a LID; 0 where none is known.
pub(crate) fn port_guid_of(fabric: &Fabric, lid: Lid) -> u64
    requires { IsFabric fabric.now }
    ensures { result ≡ port_guid fabric.now lid.0 }
{
    match fabric.place_of(lid) {
        Some(place) => match fabric.terminal_at(place.switch, place.port) {
            Some(terminal) => fabric.terminal(terminal).port_guid,
            None => fabric.switch(place.switch).guid,
        },
        None => 0,
    }
}
