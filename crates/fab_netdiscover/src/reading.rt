//! Reading a text line by line into raw records.
ghost use Rattle.std.specs.Prelude.{◌<◌, ◌≤◌, ◌-◌, length, slice_get, IfOk};
ghost use Rattle.fab_model.specs.Description.{HasNoLineFeed};
ghost use Rattle.fab_model.specs.Records.{last_line};
ghost use Rattle.fab_text.specs.Readings.{Gives, GivesSeen};
ghost use Rattle.fab_netdiscover.specs.Laws.{MakeNoOwnCable};
ghost use Rattle.fab_netdiscover.specs.Lines.{line_kind};
ghost use Rattle.fab_netdiscover.specs.Reading.{line_read, on_line, records_in, under_last, wants_memory};

use crate::ReadFault;
use crate::lines::{LineKind, adapter_head, line_kind, port_line, switch_head};
use fab_model::Raw;
use fab_text::next_line;
use std::alloc::Global;

/// Reads a port line, which stands under the last node.
fn read_port_line(line: u32, bytes: &[u8], raw: &mut Raw) -> Result<(), ReadFault>
    requires { last_line raw.old < line }
    ensures read { GivesSeen wants_memory (λ _. raw.new) result (on_line line (under_last (slice_get raw.old.nodes (length raw.old.nodes - 1)) line raw.old bytes.now)) }
    ensures below { last_line raw.new ≤ line }
{
    let nodes = raw.nodes();
    if nodes.is_empty() {
        return Err(ReadFault::Stray { line });
    }
    let node = nodes.len() - 1;
    match port_line(&nodes[node], line, node as u32, bytes) {
        Ok(Some(link)) => raw.push_link(link).map_err(ReadFault::Memory),
        Ok(None) => Ok(()),
        Err(fault) => Err(fault.on(line)),
    }
}

/// Reads a line below the records so far.
#[tactic(auto, using(crate::proofs::OneLine::switch_rest_is_line, crate::proofs::OneLine::adapter_rest_is_line))]
fn read_line(line: u32, bytes: &[u8], raw: &mut Raw) -> Result<(), ReadFault>
    requires below { last_line raw.old < line }
    requires one_line { HasNoLineFeed bytes.now }
    ensures read { GivesSeen wants_memory (λ _. raw.new) result (on_line line (line_read line raw.old (line_kind bytes.now))) }
    ensures below { last_line raw.new ≤ line }
{
    match line_kind(bytes) {
        LineKind::SwitchHead(rest) => match switch_head(line, rest) {
            Ok(node) => raw.push_node(node).map_err(ReadFault::Memory),
            Err(fault) => Err(fault.on(line)),
        },
        LineKind::AdapterHead(rest) => match adapter_head(line, rest) {
            Ok(node) => raw.push_node(node).map_err(ReadFault::Memory),
            Err(fault) => Err(fault.on(line)),
        },
        LineKind::RouterHead => Err(ReadFault::Router { line }),
        LineKind::PortLine(whole) => read_port_line(line, whole, raw),
        LineKind::PassedOver => Ok(()),
    }
}

/// Reads the text that `ibnetdiscover` prints into raw records: its nodes, and under each its links, with the
/// numbers of their lines, from 1. The fault is that of the first faulty line; within a line, the first
/// from left to right. What the records are short of for a fabric, `Fabric::build` says.
///
/// Lines that are neither a head (`Switch`, `Ca` or `Rt`) nor a port line are passed over, and so is a cable from a
/// switch to itself. Time: the bytes of the text. Memory is taken for the records alone.
#[tactic(auto, using(fab_text::proofs::LinesMet::no_line_left, fab_text::proofs::LinesMet::line_first, crate::proofs::OneLine::line_is_line), unfolding(crate::specs::Reading::lines_read, crate::specs::Reading::records_in))]
pub fn read(alloc: Global, text: &[u8]) -> Result<Raw, ReadFault>
    requires { length text.now ≤ 67108864 }
    ensures records { Gives wants_memory result (records_in text.now) }
    // A text gives no cable from a switch to itself.
    ensures no_own_cable { IfOk result MakeNoOwnCable }
{
    let mut raw = Raw::new(alloc);
    let mut from = 0;
    let mut line = 0;
    while let Some(found) = next_line(text, from) {
        line += 1;
        read_line(line, &text[found.start..found.end], &mut raw)?;
        from = found.next;
    }
    Ok(raw)
}
