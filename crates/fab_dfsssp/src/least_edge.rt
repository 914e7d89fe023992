//! The weakest edge of a ring: the first of those that the fewest paths contain, where the edges go from the ring's first
//! node on and the closing edge is the last one. It takes a look-up for each edge, and no memory.
ghost use Rattle.std.specs.Prelude.{◌≡◌, ◌<◌, length, Some, slice_get};
ghost use Rattle.fab_dfsssp.specs.Breaking.{ring_edges, IsFirstLeast};
ghost use Rattle.fab_dfsssp.specs.CountedEdges.{times_of};

use crate::counted_edges::CountedEdges;

/// The first edge of the ring with the least count.
pub(crate) fn weakest_edge(edges: &CountedEdges, ring: &[u32]) -> (u32, u32)
    requires ring { 0 < length ring.now }
    ensures { IsFirstLeast (λ edge. times_of edges.now edge) (ring_edges ring.now) result }
{
    let mut weakest = edge_at(ring, 0);
    let mut fewest = edges.times(weakest);
    for index in 1..ring.len() {
        let edge = edge_at(ring, index);
        let paths = edges.times(edge);
        if paths < fewest {
            weakest = edge;
            fewest = paths;
        }
    }
    weakest
}

/// The edge from the node at a place of the ring.
fn edge_at(ring: &[u32], index: usize) -> (u32, u32)
    requires { index < length ring.now }
    ensures { slice_get (ring_edges ring.now) index ≡ Some result }
{
    let next = if index + 1 < ring.len() {
        ring[index + 1]
    } else {
        ring[0]
    };
    (ring[index], next)
}
