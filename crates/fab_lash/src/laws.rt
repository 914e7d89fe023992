//! Laws of layers. Each function is empty; what it ensures is the law.
ghost use Rattle.fab_lash.specs.Laws.{OneLayering, LayeredOrRefused, OneNeedsLane, LanesAreAcyclic, LayeredIsCertified, OneLayeredPlan, LayeredPlanOrRefusalExists};

/// Pairs have one layer each.
pub fn one_layering()
    ensures { OneLayering }
{}

/// Where a pair needs another lane, there are no layers.
pub fn layered_or_refused()
    ensures { LayeredOrRefused }
{}

/// One pair is the first to need another lane.
pub fn one_needs_lane()
    ensures { OneNeedsLane }
{}

/// No lane closes a walk.
pub fn lanes_are_acyclic()
    ensures { LanesAreAcyclic }
{}

/// A layered plan is certified.
pub fn layered_is_certified()
    ensures { LayeredIsCertified }
{}

/// A fabric has one layered plan on so many lanes.
pub fn one_layered_plan()
    ensures { OneLayeredPlan }
{}

/// A fabric has a layered plan on so many lanes, or a pair that needs another one.
pub fn layered_plan_or_refusal_exists()
    ensures { LayeredPlanOrRefusalExists }
{}
