//! Laws of groups, which hold of their definitions alone. Each function only says that its law holds.
ghost use Rattle.fab_mcast.specs.Laws.{ReadGroupsAreKnown, OnePlanting, PlantingExists, PlantedReaches, OneSpread, SpreadExists};

/// The groups that a text names have members in the fabric.
pub fn read_groups_are_known()
    ensures { ReadGroupsAreKnown }
{}

/// Groups have one set of tables.
pub fn one_planting()
    ensures { OnePlanting }
{}

/// Groups have tables.
pub fn planting_exists()
    ensures { PlantingExists }
{}

/// A member of a planted group reaches all others that are connected to it, each once.
pub fn planted_reaches()
    ensures { PlantedReaches }
{}

/// What is reached from a member is one list.
pub fn one_spread()
    ensures { OneSpread }
{}

/// There is such a list for each member of a group that has tables.
pub fn spread_exists()
    ensures { SpreadExists }
{}
