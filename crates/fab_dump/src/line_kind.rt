//! What a line is, by the text that it begins with.
ghost use Rattle.std.specs.Prelude.{◌≡◌};
ghost use Rattle.fab_dump.specs.Lines.{kind_of};

/// What the head of a levels block begins with.
pub(crate) const LEVELS_HEAD: &[u8] = b"Levels of switch guid ";

/// What the head of a lane map begins with.
pub(crate) const MAP_HEAD: &[u8] = b"Lane map of switch guid ";

/// What a line is, by what it begins with.
#[derive(Clone, Copy)]
pub(crate) enum LineKind {
    /// An empty line, or one that begins with `#`.
    Comment,
    TableHead,
    Row,
    LevelsHead,
    MapHead,
    CertificateHead,
    PairLine,
    EndPlan,
    Other,
}

pub(crate) fn kind_of(line: &[u8]) -> LineKind
    ensures { result ≡ kind_of line.now }
{
    if line.is_empty() || line.starts_with(b"#") {
        LineKind::Comment
    } else if line.starts_with(b"Unicast lids") {
        LineKind::TableHead
    } else if line.starts_with(b"0x") {
        LineKind::Row
    } else if line.starts_with(LEVELS_HEAD) {
        LineKind::LevelsHead
    } else if line.starts_with(MAP_HEAD) {
        LineKind::MapHead
    } else if line.starts_with(b"Certificate:") {
        LineKind::CertificateHead
    } else if line.starts_with(b"[") {
        LineKind::PairLine
    } else if line.starts_with(b"end plan") {
        LineKind::EndPlan
    } else {
        LineKind::Other
    }
}
