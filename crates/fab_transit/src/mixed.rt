//! What is said of a change from one plan to another.

use fab_model::{Lid, SwitchId};
use fab_rings::Ring;
use fab_tables::{End, Lanes};

/// One of the two plans of a change.
#[derive(Clone, Copy, PartialEq, Eq, Debug, Drop)]
pub enum Side {
    /// The plan whose tables are in force before the change.
    Old,
    /// The plan whose tables are in force after it.
    New,
}

/// What is said of a change from one plan to another: numbers that show it safe, or the first fault.
#[derive(Drop)]
pub enum Mixed {
    /// Numbers that rise along the way of every packet, whichever plan's entries and maps it meets.
    Numbers(Lanes),
    /// A plan has no level for a source and a LID.
    NoLevel {
        lid: Lid,
        source: SwitchId,
        side: Side,
    },
    /// A packet may come to a switch where a plan's entry loses it.
    Lost {
        lid: Lid,
        at: SwitchId,
        side: Side,
        end: End,
    },
    /// A packet may come to a switch where a plan's map gives it no good lane.
    BadLane {
        lid: Lid,
        at: SwitchId,
        side: Side,
    },
    /// The first ring of the dependencies. The number of a virtual channel is its channel times the
    /// greater lane count plus its lane.
    RingMixed(Ring),
}
