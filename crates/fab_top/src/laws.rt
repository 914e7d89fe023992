//! The laws of answers, claimed. They say of words and contents, with no code: that there is an answer, and one alone,
//! that it keeps what the program promises, that its status is small, and the headline. And of three engines that the
//! answers to packets of their plans have numbers: an up/down route never goes down and then up, from whichever switch it
//! begins; a layer holds the routes between two switches both ways; the one lane of Nue holds whole trees. So no answer
//! turns as no packet may.
ghost use Rattle.fab_top.specs.EngineReplies.{UpDownRepliesAreNumbered, LayeredRepliesAreNumbered, NueRepliesAreNumbered};
ghost use Rattle.fab_top.specs.Headline.{Headline};
ghost use Rattle.fab_top.specs.Laws.{AnswerExists, OneAnswer, AnswersKeepHeadline, StatusIsSmall};

/// Words and the contents of the files that they name have an answer.
pub fn answer_exists()
    ensures { AnswerExists }
{}

/// Words and the contents of the files that they name have one answer.
pub fn one_answer()
    ensures { OneAnswer }
{}

/// An answer keeps what the program promises.
pub fn answers_keep_headline()
    ensures { AnswersKeepHeadline }
{}

/// Where the content of each file is told, the status is at most 3.
pub fn status_is_small()
    ensures { StatusIsSmall }
{}

/// The headline. Where `check` answers ok with lanes, the plan's routes reach every destination connected to their
/// switch, repeat no switch, and their numbers rise. The plans that UPDN, LASH, DFSSSP, Nue and repair write are such.
/// Nue and repair refuse no fabric.
pub fn headline()
    ensures { Headline }
{}

/// Packets of an up/down plan and the replies to them have numbers.
pub fn up_down_replies_are_numbered()
    ensures { UpDownRepliesAreNumbered }
{}

/// Packets of a layered plan and the replies to them have numbers.
pub fn layered_replies_are_numbered()
    ensures { LayeredRepliesAreNumbered }
{}

/// Packets of a plan of Nue on one lane and the replies to them have numbers, where nothing was kept.
pub fn nue_replies_are_numbered()
    ensures { NueRepliesAreNumbered }
{}
