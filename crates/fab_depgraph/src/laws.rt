//! Laws of lists of dependencies. Each function is a law: its clause is the statement, its body is empty, and a call
//! costs nothing.
ghost use Rattle.fab_depgraph.specs.Laws.{SubsetsAreAcyclic, ClosesByWalk, ClosesOrNot, RisingIsAcyclic};

/// Fewer dependencies close no more walks.
pub fn subsets_are_acyclic()
    ensures { SubsetsAreAcyclic }
{}

/// A new dependency closes a walk exactly where its second channel leads to its first, or is its first.
pub fn closes_by_walk()
    ensures { ClosesByWalk }
{}

/// Dependencies close a walk or they don't.
pub fn closes_or_not()
    ensures { ClosesOrNot }
{}

/// Where numbers rise along all dependencies no walk is closed.
pub fn rising_is_acyclic()
    ensures { RisingIsAcyclic }
{}
