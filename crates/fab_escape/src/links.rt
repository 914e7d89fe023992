//! The links of a lane's escape trees.
//!
//! The parent channel of a switch is the least that leads to a switch with one hop less to the root; its reverse is
//! the other channel of the cable (`IsLink` in `specs/Trees.antt`). Finding the links of S switches looks at each of
//! C channels at most once: O(S + C) time, and 16 bytes for each switch.
ghost use Rattle.std.specs.Prelude.{◌≡◌, ℕ, ◌<◌, length, IfOk};
ghost use Rattle.fab_model.specs.Connected.{AreConnected};
ghost use Rattle.fab_model.specs.WellFormed.{IsFabric};
ghost use Rattle.fab_hops.specs.HopCounts.{AreHops};
ghost use Rattle.fab_escape.specs.Trees.{IsLinked, AreRooted, AreLinks};

use fab_hops::Hops;
use fab_model::{ChannelId, Fabric, SwitchId};
use std::alloc::{AllocError, Global};

/// The link of a switch to its parent in an escape tree: the parent channel, the channel of the same cable the other
/// way, and the parent, each by its number.
#[derive(Clone, Copy)]
pub struct Link {
    pub channel: u32,
    pub reverse: u32,
    pub parent: u32,
}

/// The links of all switches, by switch, for the roots of their trees. The error is want of memory.
pub(crate) fn links_of(
    alloc: Global,
    fabric: &Fabric,
    hops: &Hops,
    roots: &[u32],
) -> Result<Vec<Option<Link>>, AllocError>
    requires hops { AreHops fabric.now hops.now }
    requires roots { AreRooted fabric.now roots.now }
    ensures { IfOk result (λ links. AreLinks fabric.now (length fabric.now.switches) roots.now links.items) }
{
    let mut links = Vec::new(alloc);
    for s in 0..fabric.switches() {
        let root = SwitchId(roots[s as usize]);
        links.push(link_up(fabric, hops, SwitchId(s), root))?;
    }
    Ok(links)
}

/// The link of a switch in the tree of a root; None at the root.
fn link_up(fabric: &Fabric, hops: &Hops, s: SwitchId, root: SwitchId) -> Option<Link>
    requires fabric { IsFabric fabric.now }
    requires hops { AreHops fabric.now hops.now }
    requires from { s.0 < length fabric.now.switches }
    requires root { root.0 < length fabric.now.switches }
    requires joined { AreConnected fabric.now s.0 root.0 }
    ensures { IsLinked fabric.now root.0 s.0 result }
{
    let nearer = hops.hop(s, root)?.checked_sub(1)?;
    let (first, past) = fabric.leaves(s);
    for number in first..past {
        let channel = ChannelId(number);
        let parent = fabric.tip(channel);
        if hops.hop(parent, root) == Some(nearer) {
            return Some(Link {
                channel: number,
                reverse: fabric.reverse(channel).0,
                parent: parent.0,
            });
        }
    }
    None
}
