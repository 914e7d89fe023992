//! Laws of the definitions. Each function is one, proved; a call does nothing.
ghost use Rattle.fab_text.specs.Laws.{LinesAreMet};

/// The lines of a text are those that `next_line` finds, one after another.
pub fn lines_are_met()
    ensures { LinesAreMet }
{}
