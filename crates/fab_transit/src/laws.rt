ghost use Rattle.fab_transit.specs.Laws.{NumbersAreSafe, OneAnswer, AnswerExists};

/// Where there are numbers, a change is safe under traffic.
pub fn numbers_are_safe()
    ensures { NumbersAreSafe }
{}

/// A change has one answer.
pub fn one_answer()
    ensures { OneAnswer }
{}

/// A change has an answer.
pub fn answer_exists()
    ensures { AnswerExists }
{}
