//! What is said of a plan's replies.

use fab_model::{Lid, SwitchId};
use fab_rings::Ring;
use fab_tables::{Lanes, Verdict};

/// What is said of a plan's replies: numbers that show them safe beside the packets, or the first fault.
#[derive(Drop)]
pub enum Replied {
    /// Numbers that rise along the way of every packet and of every reply. They stand on lanes of the plan's
    /// count that have neither levels nor maps.
    Numbers(Lanes),
    /// The first fault of the plan that no numbers can mend.
    Refused(Verdict),
    /// The reply to the terminal with the LID `lid`, from the LID `from`, leaves the switch on a lane that isn't
    /// below the lane count.
    BadLane { lid: Lid, from: Lid, at: SwitchId },
    /// The first ring of the joint dependencies. The number of a virtual channel is its channel times the lane
    /// count plus its lane.
    RingReplies(Ring),
}
