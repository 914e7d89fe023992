//! Laws of what a text means, each proved.
ghost use Rattle.fab_netdiscover.specs.Laws.{TextsHaveNoOwnCable, WrittenIsBuilt, WrittenIsRead};

/// The text of a fabric is read as its rows written out, unless a cable leads from a switch to itself.
pub fn written_is_read()
    ensures { WrittenIsRead }
{}

/// Read and built, the text of a fabric gives the fabric, unless a cable leads from a switch to itself.
pub fn written_is_built()
    ensures { WrittenIsBuilt }
{}

/// No text gives a cable from a switch to itself.
pub fn texts_have_no_own_cable()
    ensures { TextsHaveNoOwnCable }
{}
