//! Laws of sweeps, which hold of their definitions alone. Each function only says that its law holds.
ghost use Rattle.fab_sweep.specs.Laws.{FailuresAreKnown, OneSweep, SweepExists};

/// Each cable that fails is in the fabric.
pub fn failures_are_known()
    ensures { FailuresAreKnown }
{}

/// A sweep has one answer.
pub fn one_sweep()
    ensures { OneSweep }
{}

/// It has an answer.
pub fn sweep_exists()
    ensures { SweepExists }
{}
