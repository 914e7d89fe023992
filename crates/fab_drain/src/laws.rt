ghost use Rattle.fab_drain.specs.Laws.{SomePacketMoves, MovesKeepLoads, MovesTakeOneHop, EmptiedIsLoad, OneDraining, EmptyMovesAllHops, CertifiedLoadsDrain, LoadsEnd, OneFilling, FillingExists};

/// On a certified plan some packet of each load may move, unless it is empty.
pub fn some_packet_moves()
    ensures { SomePacketMoves }
{}

/// A move keeps a load.
pub fn moves_keep_loads()
    ensures { MovesKeepLoads }
{}

/// A move takes one from the sum of the remaining hops.
pub fn moves_take_one_hop()
    ensures { MovesTakeOneHop }
{}

/// A load without packets is one of any plan.
pub fn emptied_is_load()
    ensures { EmptiedIsLoad }
{}

/// There is one way to drain.
pub fn one_draining()
    ensures { OneDraining }
{}

/// A load that ends empty has made a move for each remaining hop.
pub fn empty_moves_all_hops()
    ensures { EmptyMovesAllHops }
{}

/// On a certified plan each load ends empty.
pub fn certified_loads_drain()
    ensures { CertifiedLoadsDrain }
{}

/// Each load ends, empty or with a ring of packets that wait.
pub fn loads_end()
    ensures { LoadsEnd }
{}

/// A plan has one filling.
pub fn one_filling()
    ensures { OneFilling }
{}

/// A plan that fits the fabric has a filling, or is refused.
pub fn filling_exists()
    ensures { FillingExists }
{}
