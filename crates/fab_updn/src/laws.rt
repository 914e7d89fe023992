//! Laws of up/down routing. Each function is empty; what it ensures is the law.
ghost use Rattle.fab_updn.specs.Laws.{OneRank, OneListOfRanks, UpDownReaches, NoDownThenUp, LegalTurnsAreAcyclic, OneRefusedPair, PlanOrRefusal, OneUpDownPlan, PlanOrRefusalExists, OneRootNeverRefused, UnnamedNeverRefused};

/// A switch has one rank at most.
pub fn one_rank()
    ensures { OneRank }
{}

/// The ranks of a fabric are one list.
pub fn one_list_of_ranks()
    ensures { OneListOfRanks }
{}

/// Up/down tables reach.
pub fn up_down_reaches()
    ensures { UpDownReaches }
{}

/// A route that went down doesn't go up again.
pub fn no_down_then_up()
    ensures { NoDownThenUp }
{}

/// Turns that don't go down and then up close no walk.
pub fn legal_turns_are_acyclic()
    ensures { LegalTurnsAreAcyclic }
{}

/// One pair is refused at most.
pub fn one_refused_pair()
    ensures { OneRefusedPair }
{}

/// Where a pair is refused, there is no plan.
pub fn plan_or_refusal()
    ensures { PlanOrRefusal }
{}

/// A fabric with named roots has one plan at most.
pub fn one_up_down_plan()
    ensures { OneUpDownPlan }
{}

/// A fabric with named roots has a plan or a refused pair.
pub fn plan_or_refusal_exists()
    ensures { PlanOrRefusalExists }
{}

/// In a component with one root, named or its centre, no pair is refused.
pub fn one_root_never_refused()
    ensures { OneRootNeverRefused }
{}

/// Where no root is named, no pair is refused.
pub fn unnamed_never_refused()
    ensures { UnnamedNeverRefused }
{}
