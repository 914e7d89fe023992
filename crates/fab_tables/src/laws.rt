//! The laws of the definitions of this crate. Each function ensures one, and does nothing.
ghost use Rattle.fab_tables.specs.Laws.{LoopRepeats, LoopIsLong, OneEntryChanges, OneLevelChanges, OneLaneChanges, OnePairChanges, OneNumberChanges, VerdictExists, OneVerdict, RefusalOrNone, OneRefusal, LanesIsCertified, RoutesReaches, RisingIsFreeOfDeadlock, PlainAgrees, PlainVerdictAgrees};
ghost use Rattle.fab_tables.specs.Reading.{ReadingAgrees};

/// A set changes one entry and no other.
pub fn one_entry_changes()
    ensures { OneEntryChanges }
{}

/// A set changes one level and no other.
pub fn one_level_changes()
    ensures { OneLevelChanges }
{}

/// A set changes one lane of a general map and no other.
pub fn one_lane_changes()
    ensures { OneLaneChanges }
{}

/// A set changes the map of one pair of ports and no other lane.
pub fn one_pair_changes()
    ensures { OnePairChanges }
{}

/// A set changes one number and no other.
pub fn one_number_changes()
    ensures { OneNumberChanges }
{}

/// A route is a loop exactly where a switch repeats.
pub fn loop_repeats()
    ensures { LoopRepeats }
{}

/// A loop has as many channels as there are switches.
pub fn loop_is_long()
    ensures { LoopIsLong }
{}

/// A plan has a verdict.
pub fn verdict_exists()
    ensures { VerdictExists }
{}

/// A plan has one verdict only.
pub fn one_verdict()
    ensures { OneVerdict }
{}

/// A plan with lanes has a refusal, or no fault but of its numbers.
pub fn refusal_or_none()
    ensures { RefusalOrNone }
{}

/// A plan with lanes has one refusal only.
pub fn one_refusal()
    ensures { OneRefusal }
{}

/// The verdict is `Lanes` exactly of certified plans.
pub fn lanes_is_certified()
    ensures { LanesIsCertified }
{}

/// The verdict is `Routes` exactly of plans without lanes whose routes all reach.
pub fn routes_reaches()
    ensures { RoutesReaches }
{}

/// Where the numbers rise, no packets wait for each other.
pub fn rising_is_free_of_deadlock()
    ensures { RisingIsFreeOfDeadlock }
{}

/// Without maps of pairs, what is said of terminals is what is said of sources.
pub fn plain_agrees()
    ensures { PlainAgrees }
{}

/// Without maps of pairs, the verdict and the refusal are the same, said of terminals or of sources.
pub fn plain_verdict_agrees()
    ensures { PlainVerdictAgrees }
{}

/// The lanes with which a plan is read are what the functions on reading say.
pub fn reading_agrees()
    ensures { ReadingAgrees }
{}
