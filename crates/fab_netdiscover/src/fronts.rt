//! What stands at the front of a line's bytes. Each reader gives what it read and the bytes after it.
ghost use Rattle.std.specs.Prelude.{◌≡◌, ◌+◌, ◌==◌, option_map, position, drop};
ghost use Rattle.fab_text.specs.Readings.{Answers};
ghost use Rattle.fab_netdiscover.specs.Fronts as fronts;

use crate::BadKind;
use crate::fault::LineFault;
use fab_model::NodeKind;
use fab_text::{is_blank, read_dec, read_desc, read_hex};

/// Whose name it is, by its letter.
#[derive(Clone, Copy, Debug, PartialEq, Eq)]
pub(crate) enum NameKind {
    Switch,
    Adapter,
    Router,
}

/// A node's name.
#[derive(Clone, Copy)]
pub(crate) struct Name {
    pub(crate) kind: NameKind,
    pub(crate) guid: u64,
}

pub(crate) fn past_blanks(bytes: &[u8]) -> &[u8]
    ensures { result.now ≡ fronts.past_blanks bytes.now }
{
    let mut rest = bytes;
    while let [byte, after @ ..] = rest {
        if !is_blank(*byte) {
            break;
        }
        rest = after;
    }
    rest
}

/// Passes over one blank or more.
pub(crate) fn blanks(part: BadKind, bytes: &[u8]) -> Result<&[u8], LineFault>
    ensures { Answers (λ rest. rest.now) result (fronts.blanks part bytes.now) }
{
    match bytes {
        [byte, ..] if is_blank(*byte) => Ok(past_blanks(bytes)),
        _ => Err(LineFault::Bad(part)),
    }
}

/// Passes over this text.
pub(crate) fn exactly<'a>(
    part: BadKind,
    text: &[u8],
    bytes: &'a [u8],
) -> Result<&'a [u8], LineFault>
    ensures { Answers (λ rest. rest.now) result (fronts.exactly part text.now bytes.now) }
{
    if bytes.starts_with(text) {
        Ok(&bytes[text.len()..])
    } else {
        Err(LineFault::Bad(part))
    }
}

/// The bytes behind the first byte that is this one.
pub(crate) fn past_byte(byte: u8, bytes: &[u8]) -> Option<&[u8]>
    ensures { option_map (λ rest. rest.now) result ≡ option_map (λ count. drop (count + 1) bytes.now) (position (λ one. one == byte) bytes.now) }
{
    let mut rest = bytes;
    while let [one, after @ ..] = rest {
        if *one == byte {
            return Some(after);
        }
        rest = after;
    }
    None
}

/// Reads a decimal number.
#[tactic(auto, unfolding(crate::specs::Fronts::number_at))]
pub(crate) fn number_at(part: BadKind, bytes: &[u8]) -> Result<(u32, &[u8]), LineFault>
    ensures { Answers (λ read. (read.0, read.1.now)) result (fronts.number_at part bytes.now) }
{
    match read_dec(bytes, 0) {
        Some((value, end)) if value <= u64::from(u32::MAX) => Ok((value as u32, &bytes[end..])),
        _ => Err(LineFault::Bad(part)),
    }
}

/// Reads a GUID of 1 to 16 hexadecimal digits.
#[tactic(auto, unfolding(crate::specs::Fronts::guid_at))]
pub(crate) fn guid_at(part: BadKind, bytes: &[u8]) -> Result<(u64, &[u8]), LineFault>
    ensures { Answers (λ read. (read.0, read.1.now)) result (fronts.guid_at part bytes.now) }
{
    match read_hex(bytes, 0) {
        Some((guid, end)) => Ok((guid, &bytes[end..])),
        None => Err(LineFault::Bad(part)),
    }
}

/// Reads a port number in brackets.
#[tactic(auto, unfolding(crate::specs::Fronts::port_at))]
pub(crate) fn port_at(bytes: &[u8]) -> Result<(u32, &[u8]), LineFault>
    ensures { Answers (λ read. (read.0, read.1.now)) result (fronts.port_at bytes.now) }
{
    let rest = exactly(BadKind::Port, b"[", bytes)?;
    let (port, rest) = number_at(BadKind::Port, rest)?;
    let rest = exactly(BadKind::Port, b"]", rest)?;
    Ok((port, rest))
}

fn name_kind_at(bytes: &[u8]) -> Result<(NameKind, &[u8]), LineFault>
    ensures { Answers (λ read. (read.0, read.1.now)) result (fronts.name_kind_at bytes.now) }
{
    match bytes {
        [b'S', b'-', rest @ ..] => Ok((NameKind::Switch, rest)),
        [b'H', b'-', rest @ ..] => Ok((NameKind::Adapter, rest)),
        [b'R', b'-', rest @ ..] => Ok((NameKind::Router, rest)),
        _ => Err(LineFault::Bad(BadKind::Name)),
    }
}

/// Reads a node's name in quotes.
#[tactic(auto, unfolding(crate::specs::Fronts::name_at))]
pub(crate) fn name_at(bytes: &[u8]) -> Result<(Name, &[u8]), LineFault>
    ensures { Answers (λ read. (read.0, read.1.now)) result (fronts.name_at bytes.now) }
{
    let rest = exactly(BadKind::Name, b"\"", bytes)?;
    let (kind, rest) = name_kind_at(rest)?;
    let (guid, rest) = guid_at(BadKind::Name, rest)?;
    let rest = exactly(BadKind::Name, b"\"", rest)?;
    Ok((Name { kind, guid }, rest))
}

fn names(kind: NodeKind, name: NameKind) -> bool
    ensures { result ≡ fronts.names kind name }
{
    match name {
        NameKind::Switch => kind == NodeKind::Switch,
        NameKind::Adapter => kind == NodeKind::Adapter,
        NameKind::Router => false,
    }
}

/// Reads the name of a node of one kind.
#[tactic(auto, unfolding(crate::specs::Fronts::name_of))]
pub(crate) fn name_of(kind: NodeKind, bytes: &[u8]) -> Result<(Name, &[u8]), LineFault>
    ensures { Answers (λ read. (read.0, read.1.now)) result (fronts.name_of kind bytes.now) }
{
    let (name, rest) = name_at(bytes)?;
    if !names(kind, name.kind) {
        return Err(LineFault::Bad(BadKind::Name));
    }
    Ok((name, rest))
}

/// Reads what stands in quotes up to the last quote.
#[tactic(auto, using(std::proofs::lemmas::Grind::common_steps, crate::proofs::Quotes::quotes_are))]
fn in_quotes(bytes: &[u8]) -> Result<(&[u8], &[u8]), LineFault>
    ensures { Answers (λ read. (read.0.now, read.1.now)) result (fronts.in_quotes bytes.now) }
{
    match read_desc(bytes, 0) {
        Some(text) => Ok((&bytes[text.start..text.end], &bytes[text.end + 1..])),
        None => Err(LineFault::Bad(BadKind::Description)),
    }
}

/// Reads blanks, `#`, blanks and a description in quotes up to the last quote, of which the first 64 bytes
/// count.
#[tactic(auto, using(crate::proofs::Quotes::cut), unfolding(crate::specs::Fronts::description_at))]
pub(crate) fn description_at(bytes: &[u8]) -> Result<(&[u8], &[u8]), LineFault>
    ensures { Answers (λ read. (read.0.now, read.1.now)) result (fronts.description_at bytes.now) }
{
    let rest = blanks(BadKind::Description, bytes)?;
    let rest = exactly(BadKind::Description, b"#", rest)?;
    let rest = blanks(BadKind::Description, rest)?;
    let (text, rest) = in_quotes(rest)?;
    Ok((&text[..text.len().min(64)], rest))
}
