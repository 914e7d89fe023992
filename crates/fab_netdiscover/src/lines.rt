//! What each line of a netdiscover text means.
ghost use Rattle.std.specs.Prelude.{◌≡◌, IfOk, IfSome, Some, None, option_map, length, drop, if◌then◌else◌};
ghost use Rattle.fab_model.specs.Description.{HasNoLineFeed};
ghost use Rattle.fab_text.specs.Readings.{Answers};
ghost use Rattle.fab_netdiscover.specs.Fronts as fronts;
ghost use Rattle.fab_netdiscover.specs.Lines as lines;

use crate::BadKind;
use crate::fault::LineFault;
use crate::fronts::{
    NameKind, blanks, description_at, exactly, guid_at, name_at, name_of, number_at, past_blanks,
    past_byte, port_at,
};
use crate::words::{Address, address_behind_mark, address_in};
use fab_model::{Desc, NodeKind, RawLink, RawNode};
use fab_text::is_blank;

/// What a line is, by what stands at its front; with the bytes that are read on.
#[derive(Clone, Copy)]
pub(crate) enum LineKind<'a> {
    SwitchHead(&'a [u8]),
    AdapterHead(&'a [u8]),
    RouterHead,
    PortLine(&'a [u8]),
    PassedOver,
}

/// The port count and the GUID of a node.
#[derive(Clone, Copy)]
pub(crate) struct NodeFront {
    pub(crate) ports: u32,
    pub(crate) guid: u64,
}

/// What a port line says up to the far port.
#[derive(Clone, Copy)]
pub(crate) struct Cabled {
    pub(crate) port: u32,
    pub(crate) port_guid: u64,
    pub(crate) far_kind: NodeKind,
    pub(crate) far_guid: u64,
    pub(crate) far_port: u32,
}

/// The bytes behind this word, where it and a blank stand at the front.
fn past_word<'a>(word: &[u8], bytes: &'a [u8]) -> Option<&'a [u8]>
    ensures { option_map (λ rest. rest.now) result ≡ (if lines.begins_with_word word.now bytes.now then Some (drop (length word.now) bytes.now) else None) }
{
    if bytes.starts_with(word) && bytes.len() > word.len() && is_blank(bytes[word.len()]) {
        Some(&bytes[word.len()..])
    } else {
        None
    }
}

#[tactic(auto, unfolding(crate::specs::Lines::line_kind))]
pub(crate) fn line_kind(bytes: &[u8]) -> LineKind<'_>
    ensures { lines.kind_view result ≡ lines.line_kind bytes.now }
{
    let bytes = past_blanks(bytes);
    if let Some(rest) = past_word(b"Switch", bytes) {
        LineKind::SwitchHead(rest)
    } else if let Some(rest) = past_word(b"Ca", bytes) {
        LineKind::AdapterHead(rest)
    } else if past_word(b"Rt", bytes).is_some() {
        LineKind::RouterHead
    } else if bytes.starts_with(b"[") {
        LineKind::PortLine(bytes)
    } else {
        LineKind::PassedOver
    }
}

/// Reads the port count and the name of a node of this kind, each behind blanks.
fn node_front(kind: NodeKind, bytes: &[u8]) -> Result<(NodeFront, &[u8]), LineFault>
    ensures { Answers (λ read. (read.0, read.1.now)) result (lines.node_front kind bytes.now) }
{
    let rest = blanks(BadKind::Ports, bytes)?;
    let (ports, rest) = number_at(BadKind::Ports, rest)?;
    let rest = blanks(BadKind::Name, rest)?;
    let (name, rest) = name_of(kind, rest)?;
    let front = NodeFront {
        ports,
        guid: name.guid,
    };
    Ok((front, rest))
}

/// Reads what stands behind the word `Switch`.
#[tactic(auto, unfolding(crate::specs::Lines::switch_head))]
pub(crate) fn switch_head(line: u32, bytes: &[u8]) -> Result<RawNode, LineFault>
    requires { HasNoLineFeed bytes.now }
    ensures head { result ≡ lines.switch_head line bytes.now }
    ensures line { IfOk result (λ head. head.line ≡ line) }
{
    let (front, rest) = node_front(NodeKind::Switch, bytes)?;
    let (desc, rest) = description_at(rest)?;
    let address = address_in(rest)?;
    Ok(RawNode {
        line,
        kind: NodeKind::Switch,
        guid: front.guid,
        ports: front.ports,
        lid: address.lid,
        lmc: address.lmc,
        desc: Desc::new(desc),
    })
}

/// The description, or none where it has another form.
fn description_or_none(bytes: &[u8]) -> &[u8]
    ensures { result.now ≡ lines.description_or_none (fronts.description_at bytes.now) }
{
    match description_at(bytes) {
        Ok((desc, _)) => desc,
        Err(_) => &[],
    }
}

/// Reads what stands behind the word `Ca`.
#[tactic(auto, unfolding(crate::specs::Lines::adapter_head))]
pub(crate) fn adapter_head(line: u32, bytes: &[u8]) -> Result<RawNode, LineFault>
    requires { HasNoLineFeed bytes.now }
    ensures head { result ≡ lines.adapter_head line bytes.now }
    ensures line { IfOk result (λ head. head.line ≡ line) }
{
    let (front, rest) = node_front(NodeKind::Adapter, bytes)?;
    Ok(RawNode {
        line,
        kind: NodeKind::Adapter,
        guid: front.guid,
        ports: front.ports,
        lid: 0,
        lmc: 0,
        desc: Desc::new(description_or_none(rest)),
    })
}

/// The bytes behind an extended port, where one stands at the front.
fn past_extended_in(bytes: &[u8]) -> Option<&[u8]>
    ensures { option_map (λ rest. rest.now) result ≡ lines.past_extended_in bytes.now }
{
    if bytes.starts_with(b"[ext ") {
        past_byte(b']', bytes)
    } else {
        None
    }
}

fn past_extended(bytes: &[u8]) -> &[u8]
    ensures { result.now ≡ lines.past_extended bytes.now }
{
    match past_extended_in(past_blanks(bytes)) {
        Some(rest) => rest,
        None => bytes,
    }
}

/// Reads a port's GUID in parentheses.
fn in_parentheses(bytes: &[u8]) -> Result<(u64, &[u8]), LineFault>
    ensures { Answers (λ read. (read.0, read.1.now)) result (lines.in_parentheses bytes.now) }
{
    let rest = exactly(BadKind::Port, b"(", bytes)?;
    let (guid, rest) = guid_at(BadKind::Port, rest)?;
    let rest = exactly(BadKind::Port, b")", rest)?;
    Ok((guid, rest))
}

/// Reads a port's GUID behind blanks, where a parenthesis stands there.
fn port_guid_at(bytes: &[u8]) -> Result<(u64, &[u8]), LineFault>
    ensures { Answers (λ read. (read.0, read.1.now)) result (lines.port_guid_at bytes.now) }
{
    let front = past_blanks(bytes);
    if front.starts_with(b"(") {
        in_parentheses(front)
    } else {
        Ok((0, bytes))
    }
}

/// Reads an extended port and a port's GUID, each at most once and in either order.
#[tactic(auto, unfolding(crate::specs::Lines::optional_parts))]
fn optional_parts(bytes: &[u8]) -> Result<(u64, &[u8]), LineFault>
    ensures { Answers (λ read. (read.0, read.1.now)) result (lines.optional_parts bytes.now) }
{
    match past_extended_in(past_blanks(bytes)) {
        Some(rest) => port_guid_at(rest),
        None => {
            let (guid, rest) = port_guid_at(bytes)?;
            Ok((guid, past_extended(rest)))
        }
    }
}

/// What the far end of a cable is. A router is refused.
fn far_kind_of(name: NameKind) -> Result<NodeKind, LineFault>
    ensures { result ≡ lines.far_kind_of name }
{
    match name {
        NameKind::Switch => Ok(NodeKind::Switch),
        NameKind::Adapter => Ok(NodeKind::Adapter),
        NameKind::Router => Err(LineFault::NamesRouter),
    }
}

/// Reads a port line up to the far port.
#[tactic(auto, unfolding(crate::specs::Lines::cabled_at))]
fn cabled_at(bytes: &[u8]) -> Result<(Cabled, &[u8]), LineFault>
    ensures { Answers (λ read. (read.0, read.1.now)) result (lines.cabled_at bytes.now) }
{
    let (port, rest) = port_at(bytes)?;
    let (port_guid, rest) = optional_parts(rest)?;
    let rest = blanks(BadKind::Name, rest)?;
    let (name, rest) = name_at(rest)?;
    let far_kind = far_kind_of(name.kind)?;
    let (far_port, rest) = port_at(past_blanks(rest))?;
    let cabled = Cabled {
        port,
        port_guid,
        far_kind,
        far_guid: name.guid,
        far_port,
    };
    Ok((cabled, rest))
}

/// Whether it is a cable from the switch of this GUID to itself.
fn is_own(guid: u64, cabled: &Cabled) -> bool
    ensures { result ≡ lines.is_own guid cabled.now }
{
    match cabled.far_kind {
        NodeKind::Switch => cabled.far_guid == guid,
        NodeKind::Adapter => false,
    }
}

fn link_of(line: u32, node: u32, cabled: &Cabled, address: Address) -> RawLink
    ensures link { result ≡ lines.link_of line node cabled.now address }
    ensures place { (result.line ≡ line) × (result.node ≡ node) }
{
    RawLink {
        line,
        node,
        port: cabled.port,
        far_kind: cabled.far_kind,
        far_guid: cabled.far_guid,
        far_port: cabled.far_port,
        port_guid: cabled.port_guid,
        lid: address.lid,
        lmc: address.lmc,
    }
}

/// Reads a port line under a head, which is the node of this number. A cable from a switch to itself gives no
/// link.
#[tactic(auto, unfolding(crate::specs::Lines::port_line))]
pub(crate) fn port_line(
    head: &RawNode,
    line: u32,
    node: u32,
    bytes: &[u8],
) -> Result<Option<RawLink>, LineFault>
    ensures link { result ≡ lines.port_line head.now line node bytes.now }
    ensures place { IfOk result (λ found. IfSome found (λ link. (link.line ≡ line) × (link.node ≡ node))) }
{
    let (cabled, rest) = cabled_at(bytes)?;
    match head.kind {
        NodeKind::Switch => {
            if is_own(head.guid, &cabled) {
                return Ok(None);
            }
            let no_address = Address { lid: 0, lmc: 0 };
            Ok(Some(link_of(line, node, &cabled, no_address)))
        }
        NodeKind::Adapter => {
            let address = address_behind_mark(rest)?;
            Ok(Some(link_of(line, node, &cabled, address)))
        }
    }
}
