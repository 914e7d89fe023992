//! Laws of the definitions, each claimed by a function that does nothing: what reads the contracts of this crate
//! may cite them. Calling one costs nothing.
ghost use Rattle.fab_model.specs.Laws.{FaultlessMake, WellFormedMakeThemselves, WithoutKeepsNoOwnCable};

/// Records without a fault make a fabric.
pub fn faultless_make()
    ensures { FaultlessMake }
{}

/// What every fabric keeps says just that its rows, written out as raw records, make it.
pub fn well_formed_make_themselves()
    ensures { WellFormedMakeThemselves }
{}

/// Taking out cables makes no cable from a switch to itself.
pub fn without_keeps_no_own_cable()
    ensures { WithoutKeepsNoOwnCable }
{}
