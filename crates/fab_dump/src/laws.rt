//! Laws of the plan text: what is written is read again, what is read fits and is tidy, and what is written is
//! within what a file of a plan may hold. Each function is one, proved; a call does nothing.
ghost use Rattle.fab_dump.specs.Laws.{ReadIsTidy, WrittenIsRead, WrittenIsShort};

/// A plan that a text spells fits its fabric, and no level stands at a switch that isn't a source.
pub fn read_is_tidy()
    ensures { ReadIsTidy }
{}

/// The text of a tidy plan that fits its fabric spells that plan.
pub fn written_is_read()
    ensures { WrittenIsRead }
{}

/// The text of a plan that fits its fabric is within what a plan's file may hold.
pub fn written_is_short()
    ensures { WrittenIsShort }
{}
