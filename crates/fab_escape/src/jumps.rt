//! What lets the way up from a switch be climbed in few steps: its depth, and a jump far up its way.
//!
//! From a depth d the jump lands at a depth that d alone tells: twice as far up as from the depth above, where two
//! jumps from there are equally far, and else at the depth above. Then a climb from depth d to any depth above takes
//! O(log d) steps. The depths and jumps of S switches take 6 bytes for each, and O(S * D) time for trees of depth D.
//!
//! Source: E. W. Myers, "An Applicative Random-Access Stack", Information Processing Letters 17 (1983).
ghost use Rattle.std.specs.Prelude.{◌≡◌, ℕ, ◌<◌, ◌≤◌, ◌^◌, length, Some, None, IfOk, slice_index_or};
ghost use Rattle.fab_escape.specs.declared.links.Link.{Link as Linked};
ghost use Rattle.fab_hops.specs.HopCounts.{AreHops, IsHopCount};
ghost use Rattle.fab_escape.specs.Forest.{Forest, climbed};
ghost use Rattle.fab_escape.specs.Climbing.{AreDepths, AreJumps, AreLandings};
ghost use Rattle.fab_escape.specs.Trees.{AreRooted, AreHopsToRoots};

use crate::links::Link;
use fab_hops::Hops;
use fab_model::{Fabric, SwitchId};
use std::alloc::{AllocError, Global};

/// The hop count of each switch to its root, by switch. The error is want of memory.
pub(crate) fn depths_of(
    alloc: Global,
    fabric: &Fabric,
    hops: &Hops,
    roots: &[u32],
) -> Result<Vec<u16>, AllocError>
    requires hops { AreHops fabric.now hops.now }
    requires roots { AreRooted fabric.now roots.now }
    ensures { IfOk result (λ depths. AreHopsToRoots fabric.now (length fabric.now.switches) roots.now depths.items) }
{
    let mut depths = Vec::new(alloc);
    for s in 0..fabric.switches() {
        match hops.hop(SwitchId(s), SwitchId(roots[s as usize])) {
            Some(depth) => depths.push(depth)?,
            None => unreachable!(),
        }
    }
    Ok(depths)
}

/// A switch far up the way from each switch, by switch. The error is want of memory.
pub(crate) fn jumps_of(
    alloc: Global,
    links: &[Option<Link>],
    depths: &[u16],
) -> Result<Vec<u32>, AllocError>
    requires few { length links.now < 2 ^ 16 }
    requires depths { (f : Forest) → f.links ≡ links.now → AreDepths f depths.now }
    ensures { IfOk result (λ jumps. (f : Forest) → f.links ≡ links.now → AreJumps f jumps.items) }
{
    let landings = landings_of(alloc, depths.len() as u16)?;
    let mut jumps = Vec::new(alloc);
    for s in 0..depths.len() {
        let depth = depths[s];
        let steps = depth - landings[depth as usize];
        jumps.push(climb(links, s as u32, steps))?;
    }
    Ok(jumps)
}

/// By depth, the depth at which a jump from there lands: above it, and 0 for 0.
fn landings_of(alloc: Global, depths: u16) -> Result<Vec<u16>, AllocError>
    ensures many { IfOk result (λ landings. length landings.items ≡ depths) }
    ensures above { IfOk result (λ landings. AreLandings landings.items) }
{
    let mut landings = Vec::new(alloc);
    for depth in 0..depths {
        let landing = match depth.checked_sub(1) {
            Some(above) => landing_below(&landings, above),
            None => 0,
        };
        landings.push(landing)?;
    }
    Ok(landings)
}

/// Where a jump lands from the depth below the last.
fn landing_below(landings: &[u16], above: u16) -> u16
    requires last { above < length landings.now }
    requires above { AreLandings landings.now }
    ensures { result ≤ above }
{
    let near = landings[above as usize];
    let far = landings[near as usize];
    if above - near == near - far {
        far
    } else {
        above
    }
}

/// The switch so many links up from a switch; its root where there are fewer.
fn climb(links: &[Option<Link>], s: u32, steps: u16) -> u32
    requires start { s < length links.now }
    requires within { (at : ℕ) (link : Linked) → slice_index_or links.now at None ≡ Some link → link.parent < length links.now }
    ensures { result ≡ climbed links.now steps s }
{
    let mut at = s;
    for _ in 0..steps {
        if let Some(link) = links[at as usize] {
            at = link.parent;
        }
    }
    at
}
