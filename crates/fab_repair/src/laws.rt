//! Laws of repairs, which hold of their definitions alone. Each function only says that its law holds.
ghost use Rattle.fab_repair.specs.Laws.{NothingFailed, OneRepair, RepairExists, KeptStay};

/// Taking out no cable leaves the fabric.
pub fn nothing_failed()
    ensures { NothingFailed }
{}

/// A plan has one repair.
pub fn one_repair()
    ensures { OneRepair }
{}

/// It has a repair wherever the failed cables are in the fabric.
pub fn repair_exists()
    ensures { RepairExists }
{}

/// Entries and levels of the kept LIDs stay wherever these can be reached.
pub fn kept_stay()
    ensures { KeptStay }
{}
