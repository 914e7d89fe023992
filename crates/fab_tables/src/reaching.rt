//! Whether all routes are delivered: the first switch, by LID and then by switch connected to it, from which
//! the entries of forwarding tables don't lead to the LID's place.
//!
//! For a LID each switch has one entry, so a route that comes to a switch whose route is delivered is delivered
//! too, and one that comes to a switch of its own is a loop: each switch is stepped from once for a LID. The time
//! is that of (LIDs) x (switches) steps. It takes no memory but the marks, 8 bytes for each switch.
ghost use Rattle.std.specs.Prelude.{◌≡◌, ◌<◌, ◌+◌, ◌∷◌, [], length, None};
ghost use Rattle.fab_tables.specs.declared.end.End.TheVariants.{Delivered as delivery};
ghost use Rattle.fab_tables.specs.Fit.{EntriesFit};
ghost use Rattle.fab_tables.specs.Route.{route as path};
ghost use Rattle.fab_tables.specs.Verdicts.{IsFaultAt};
ghost use Rattle.fab_tables.specs.Reaching.{IsToward, AreDelivered};
ghost use Rattle.fab_tables.specs.First.{FindsFirst, Beneath};

use crate::components::Components;
use crate::end::End;
use crate::following::follow;
use crate::tables::Tables;
use crate::verdict::Verdict;
use fab_model::{Fabric, Lid, SwitchId};

/// The first route that isn't delivered, by LID and then by switch connected to it. For each LID it takes one
/// step for each switch. The list is room for a mark at each switch: the first switch whose route comes there.
pub fn first_unreached(
    fabric: &Fabric,
    tables: &Tables,
    components: &Components,
    delivered: &mut [Option<SwitchId>],
) -> Option<Verdict>
    requires fits { EntriesFit fabric.now tables.now }
    requires components { components.now ≡ fabric.now }
    requires room { length delivered.old ≡ length fabric.now.switches }
    ensures { FindsFirst (IsFaultAt fabric.now tables.now None) result }
{
    for lid in fabric.lids_in_use() {
        let unreached = unreached_for(fabric, tables, *lid, components, delivered);
        if unreached.is_some() {
            return unreached;
        }
    }
    None
}

/// The first switch connected to a LID whose route to it isn't delivered.
fn unreached_for(
    fabric: &Fabric,
    tables: &Tables,
    lid: Lid,
    components: &Components,
    delivered: &mut [Option<SwitchId>],
) -> Option<Verdict>
    requires toward { IsToward fabric.now tables.now lid.0 }
    requires components { components.now ≡ fabric.now }
    requires room { length delivered.old ≡ length fabric.now.switches }
    ensures { FindsFirst (Beneath (0 ∷ lid.0 ∷ []) (IsFaultAt fabric.now tables.now None)) result }
{
    let home = fabric.place_of(lid)?.switch;
    delivered.fill(None);
    for s in 0..fabric.switches() {
        let switch = SwitchId(s);
        if components.are_connected(switch, home) && delivered[s as usize].is_none() {
            match end_of_route(fabric, tables, lid, delivered, switch) {
                End::Delivered => {}
                end => return Some(Verdict::Unreached { lid, switch, end }),
            }
        }
    }
    None
}

/// How the route from a switch ends, where the routes from all switches marked so far are delivered. Each switch
/// that it comes to is marked with the one from which it starts; where it comes to such a switch again it is a
/// loop, and where it isn't delivered the marks say nothing.
fn end_of_route<'a>(
    fabric: &'a Fabric,
    tables: &'a Tables,
    lid: Lid,
    delivered: &mut [Option<SwitchId>],
    from: SwitchId,
) -> End
    requires toward { IsToward fabric.now tables.now lid.0 }
    requires marks { AreDelivered fabric.now tables.now lid.0 from.0 delivered.old }
    requires switch { from.0 < length fabric.now.switches }
    ensures end { result ≡ (path fabric.now tables.now from.0 lid.0).end }
    ensures marks { result ≡ delivery → AreDelivered fabric.now tables.now lid.0 (from.0 + 1) delivered.new }
{
    delivered[from.0 as usize] = Some(from);
    let mut route = follow(fabric, tables, from, lid);
    while let Some(channel) = route.next() {
        let tip = fabric.tip(channel).0 as usize;
        if let Some(first) = delivered[tip] {
            return if first == from {
                End::Loop
            } else {
                End::Delivered
            };
        }
        delivered[tip] = Some(from);
    }
    route.end().unwrap()
}
