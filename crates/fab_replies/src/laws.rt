//! Laws of replies, which hold of their definitions alone. Each function only says that its law holds.
ghost use Rattle.fab_replies.specs.Laws.{OneAnswer, AnswerExists, NumbersCover, SameLevelIsPacket, AcyclicIsNumbered, AcyclicByLevelIsNumbered, RingIsDeadlocked};

/// A plan has one answer.
pub fn one_answer()
    ensures { OneAnswer }
{}

/// A plan has an answer.
pub fn answer_exists()
    ensures { AnswerExists }
{}

/// Where there are numbers, they cover packets and replies.
pub fn numbers_cover()
    ensures { NumbersCover }
{}

/// Where two terminals have the same level for each other, a reply is a packet.
pub fn same_level_is_packet()
    ensures { SameLevelIsPacket }
{}

/// Where the joint dependencies of a plan without a fault close no walk, the answer is numbers.
pub fn acyclic_is_numbered()
    ensures { AcyclicIsNumbered }
{}

/// So it is for a certified plan whose lanes go by level, where what follows on packets and replies of one level closes no
/// walk.
pub fn acyclic_by_level_is_numbered()
    ensures { AcyclicByLevelIsNumbered }
{}

/// Where there is a ring, some packets and replies wait for each other: for each member of the ring one holds that virtual
/// channel alone, and waits for the next.
pub fn ring_is_deadlocked()
    ensures { RingIsDeadlocked }
{}
