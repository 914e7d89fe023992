//! Walks, rings and levels of directed graphs: the words that the other crates share, and their laws.
//!
//! A routing has no deadlock where the dependencies of its virtual channels close no walk, in the terms of
//! Dally and Seitz. The crates above show that a graph closes none by numbers that rise along each edge, or
//! show a ring. What these words mean is said here, once, for any relation:
//!
//! - a walk goes from edge to edge, and a closed walk leads from a node back to it (`specs/Walks.antt`);
//! - the first ring is one closed walk in a fixed form (`specs/Rings.antt`);
//! - the levels are the least numbers from 1 that rise along each edge (`specs/Levels.antt`).
//!
//! Each function is a law: its clause is the statement, its body is empty, and a call costs nothing. The lemmas
//! that crates above cite are in `proofs/`, by subject.
#![tactic(auto)]

ghost use Rattle.fab_graph.specs.Laws.{RisingIsAcyclic, OneFirstRing, RingOrAcyclic, RingIsCyclic, OneLevel, LevelsAreAcyclic};

/// Where numbers rise along each edge, no walk is closed.
pub fn rising_is_acyclic()
    ensures { RisingIsAcyclic }
{}

/// A graph has at most one first ring.
pub fn one_first_ring()
    ensures { OneFirstRing }
{}

/// A graph has a first ring, or no closed walk.
pub fn ring_or_acyclic()
    ensures { RingOrAcyclic }
{}

/// A graph with a first ring has a closed walk.
pub fn ring_is_cyclic()
    ensures { RingIsCyclic }
{}

/// A graph has at most one numbering by levels.
pub fn one_level()
    ensures { OneLevel }
{}

/// A graph with levels has no closed walk.
pub fn levels_are_acyclic()
    ensures { LevelsAreAcyclic }
{}
