//! The first fault that mixed walks come to. Places are compared from the left, in constant time.
ghost use Rattle.std.specs.Prelude.{◌≡◌};
ghost use Rattle.fab_transit.specs.Faults.{place_of_fault, mixed_of, Notes};

use crate::mixed::{Mixed, Side};
use fab_model::{Lid, SwitchId};
use fab_tables::End;

/// What is wrong at a switch.
#[derive(Clone, Copy, Drop)]
pub(crate) enum Wrong {
    /// The entry loses packets, and how their route ends.
    Entry(End),
    /// The map gives a lane that isn't good.
    Lane,
}

/// A fault that mixed walks to a LID come to at a switch, in one of the plans.
#[derive(Clone, Copy, Drop)]
pub(crate) struct Fault {
    pub(crate) wrong: Wrong,
    pub(crate) lid: Lid,
    pub(crate) at: SwitchId,
    pub(crate) side: Side,
}

impl Fault {
    /// Where it stands in the order of faults: entries before lanes, and then by LID, switch and plan.
    fn place(&self) -> [u32; 4]
        ensures { result ≡ place_of_fault self.now }
    {
        let kind = match self.wrong {
            Wrong::Entry(_) => 1,
            Wrong::Lane => 2,
        };
        let side = match self.side {
            Side::Old => 0,
            Side::New => 1,
        };
        [kind, u32::from(self.lid.0), self.at.0, side]
    }

    /// The answer that it is.
    pub(crate) fn answer(self) -> Mixed
        ensures { result ≡ mixed_of self }
    {
        let Fault { lid, at, side, .. } = self;
        match self.wrong {
            Wrong::Entry(end) => Mixed::Lost { lid, at, side, end },
            Wrong::Lane => Mixed::BadLane { lid, at, side },
        }
    }
}

/// Takes note of a fault, unless the one that is noted comes first.
pub(crate) fn note(first: &mut Option<Fault>, fault: Fault)
    ensures { Notes first.old fault first.new }
{
    match first {
        Some(noted) if noted.place() <= fault.place() => {}
        _ => *first = Some(fault),
    }
}
