//! The old routes to a LID as a tree, if all of them are delivered.
//!
//! From each switch the old entries are followed to the end, so the time is that of the hops of all routes to the
//! LID. No memory.
ghost use Rattle.std.specs.Prelude.{◌≡◌, ◌<◌, length, MatchBool, option_map, slice_get};
ghost use Rattle.fab_model.specs.declared.rows.ChannelId.{ChannelId as Channel};
ghost use Rattle.fab_tables.specs.Reaching.{IsToward};
ghost use Rattle.fab_tables.specs.Route.{route as path};
ghost use Rattle.fab_nue.specs.OldRoutes.{AreAllDelivered, IsRouteTree};

use fab_model::{ChannelId, Fabric, Lid, SwitchId};
use fab_tables::{Components, End, Tables, Tree, follow};

/// Gives each switch the first channel of its route to a LID, if all routes from connected switches are delivered;
/// else the answer is false. What the tree held before has no effect.
pub(crate) fn write_route_tree(
    fabric: &Fabric,
    components: &Components,
    tables: &Tables,
    lid: Lid,
    tree: &mut Tree,
) -> bool
    requires toward { IsToward fabric.now tables.now lid.0 }
    requires components { components.now ≡ fabric.now }
    requires tree { length tree.old ≡ length fabric.now.switches }
    ensures delivered { MatchBool result (IsRouteTree fabric.now tables.now lid.0 tree.new) (¬ AreAllDelivered fabric.now tables.now lid.0) }
    ensures tree { length tree.new ≡ length fabric.now.switches }
{
    let home = fabric.place_of(lid).unwrap().switch;
    for s in 0..fabric.switches() {
        let from = SwitchId(s);
        let mut first = None;
        if components.are_connected(from, home) {
            let (channel, end) = ends_of_route(fabric, tables, from, lid);
            if end != End::Delivered {
                return false;
            }
            first = channel;
        }
        tree.set(fabric, from, first);
    }
    true
}

/// The first channel of a route, if it has one, and how the route ends.
fn ends_of_route(
    fabric: &Fabric,
    tables: &Tables,
    from: SwitchId,
    lid: Lid,
) -> (Option<ChannelId>, End)
    requires toward { IsToward fabric.now tables.now lid.0 }
    requires from { from.0 < length fabric.now.switches }
    ensures first { option_map (λ (c : Channel). c.0) result.0 ≡ slice_get (path fabric.now tables.now from.0 lid.0).channels 0 }
    ensures end { result.1 ≡ (path fabric.now tables.now from.0 lid.0).end }
{
    let mut route = follow(fabric, tables, from, lid);
    let first = route.next();
    while let Some(_) = route.next() {}
    (first, route.end().unwrap())
}
