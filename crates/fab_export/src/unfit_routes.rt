//! The first route that is too long for path queries: a subnet manager answers none of a route that passes more than 64
//! switches.
//!
//! A route is followed along 64 channels at most, so the time is that of (LIDs) x (sources) x (channels of a route); no
//! memory.
ghost use Rattle.std.specs.Prelude.{◌≡◌, ◌<◌, nat_le, length, Contains};
ghost use Rattle.fab_model.specs.Topology.{lids_of};
ghost use Rattle.fab_tables.specs.Route.{route};
ghost use Rattle.fab_export.specs.Unfits.{greatest_passed, is_too_far, too_far, too_far_from};

use crate::fault::Unfit;
use crate::reached::Reached;
use fab_model::{Lid, SwitchId};

/// The greatest number of switches on a route.
const GREATEST_PASSED: usize = 64;

/// The first route, by LID and then by source, that passes more than 64 switches.
pub(crate) fn too_far(reached: &Reached) -> Option<Unfit>
    ensures { result ≡ too_far reached.now.fabric reached.now.entries }
{
    for lid in reached.lids() {
        let far = too_far_to(reached, *lid);
        if far.is_some() {
            return far;
        }
    }
    None
}

/// The first source whose route to a LID passes more than 64 switches.
fn too_far_to(reached: &Reached, lid: Lid) -> Option<Unfit>
    requires { Contains (lids_of reached.now.fabric) lid.0 }
    ensures { result ≡ too_far_from reached.now.fabric reached.now.entries lid.0 }
{
    let fabric = reached.fabric();
    for switch in 0..fabric.switches() {
        let source = SwitchId(switch);
        if fabric.has_terminal(source) && is_too_far(reached, source, lid) {
            return Some(Unfit::TooFar { lid, source });
        }
    }
    None
}

/// Whether a switch's route to a LID is delivered and passes more than 64 switches.
fn is_too_far(reached: &Reached, switch: SwitchId, lid: Lid) -> bool
    requires switch { switch.0 < length reached.now.fabric.switches }
    requires lid { Contains (lids_of reached.now.fabric) lid.0 }
    ensures { result ≡ is_too_far reached.now.fabric reached.now.entries lid.0 switch.0 }
{
    reached.reaches(switch, lid) && is_long(reached, switch, lid)
}

/// Whether a switch's route to a LID goes along 64 channels.
fn is_long(reached: &Reached, switch: SwitchId, lid: Lid) -> bool
    requires switch { switch.0 < length reached.now.fabric.switches }
    requires lid { Contains (lids_of reached.now.fabric) lid.0 }
    ensures { result ≡ nat_le greatest_passed (length (route reached.now.fabric reached.now.entries switch.0 lid.0).channels) }
{
    let mut route = reached.follow(switch, lid);
    let mut channels = 0;
    while channels < GREATEST_PASSED {
        if route.next().is_none() {
            return false;
        }
        channels += 1;
    }
    true
}
