//! The order of a component from its centre outward.
//!
//! The eccentricity of a switch is its greatest hop count to a switch of its component; the centre has the least.
//! Finding the order goes through the rows of the component's switches, and sorts them: for n of S switches
//! O(n * (S + log n)) time, and 12 bytes for each of the n.
ghost use Rattle.std.specs.Prelude.{◌≡◌, ◌<◌, map, IfOk};
ghost use Rattle.fab_model.specs.declared.rows.SwitchId.{SwitchId as Switch};
ghost use Rattle.fab_model.specs.Topology.{Topology};
ghost use Rattle.fab_model.specs.WellFormed.{IsWellFormed};
ghost use Rattle.fab_hops.specs.HopCounts.{AreHops};
ghost use Rattle.fab_hops.specs.Centres.{IsCentreOrder, IsGreatestHop};

use crate::Hops;
use fab_model::SwitchId;
use std::alloc::{AllocError, Global};

impl Hops {
    /// The switches of the component of `s`, by (greatest hop count to any of them, index): its centre first.
    /// An error comes where there is no memory for them. For n of S switches it takes O(n * (S + log n)) time.
    pub fn centre_order(&self, alloc: Global, s: SwitchId) -> Result<Vec<SwitchId>, AllocError>
        requires { s.0 < self.now.switches }
        // Of every fabric with these hop counts.
        ensures { IfOk result (λ order. (t : Topology) → IsWellFormed t → AreHops t self.now →
            IsCentreOrder t s.0 (map (λ (x : Switch). x.0) order.items)) }
    {
        let mut members = Vec::new(alloc);
        for index in 0..self.switches() {
            let member = SwitchId(index);
            if self.hop(s, member).is_some() {
                members.push((self.eccentricity(member), member))?;
            }
        }
        members.sort_unstable();
        switches_of(alloc, &members)
    }

    /// The greatest hop count from `s` to a switch of its component.
    fn eccentricity(&self, s: SwitchId) -> u16
        requires { s.0 < self.now.switches }
        ensures { IsGreatestHop self.now s.0 result }
    {
        let mut greatest = 0;
        for index in 0..self.switches() {
            if let Some(hops) = self.hop(s, SwitchId(index)) {
                greatest = hops.max(greatest);
            }
        }
        greatest
    }
}

/// The switches of such pairs, in their order.
fn switches_of(alloc: Global, ranked: &[(u16, SwitchId)]) -> Result<Vec<SwitchId>, AllocError>
    ensures { IfOk result (λ switches. switches.items ≡ map (λ pair. pair.1) ranked.now) }
{
    ranked.iter().map(|pair| pair.1).collect(alloc)
}
