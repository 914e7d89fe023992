//! The netdiscover text of a fabric.
ghost use Rattle.std.specs.Prelude.{◌≡◌, ◌<◌, ◌++◌, length, slice_get, find, IfOk, IfSome, OnOk};
ghost use Rattle.std.specs.List.{flat_map, enumerate_from};
ghost use Rattle.fab_model.specs.Topology.{leaves_by, is_cabled_at, HasNoOwnCable};
ghost use Rattle.fab_model.specs.Written.{port_numbers};
ghost use Rattle.fab_model.specs.WellFormed.{IsFabric};
ghost use Rattle.fab_netdiscover.specs.AdapterPorts.{FindsAmong};
ghost use Rattle.fab_netdiscover.specs.Laws.{IsTextOf};
ghost use Rattle.fab_netdiscover.specs.Writing as writing;

use crate::adapter_ports::terminals_by_adapter_port;
use fab_model::{
    AdapterRow, ChannelRow, Desc, Fabric, Lid, NodeKind, SwitchId, SwitchRow, TerminalId,
    TerminalRow,
};
use fab_text::{push, push_dec, push_hex16};
use std::alloc::{AllocError, Global};
use std::collections::HashMap;

/// Appends a node's name.
#[tactic(auto, unfolding(crate::specs::Writing::name_text, crate::specs::Writing::guid16))]
fn push_name(text: &mut Vec<u8>, kind: NodeKind, guid: u64) -> Result<(), AllocError>
    ensures { OnOk result (text.new.items ≡ text.old.items ++ writing.name_text kind guid) }
{
    let letter = match kind {
        NodeKind::Switch => b"\"S-",
        NodeKind::Adapter => b"\"H-",
    };
    push(text, letter)?;
    push_hex16(text, guid)?;
    push(text, b"\"")
}

/// Appends a port in brackets.
#[tactic(auto, unfolding(crate::specs::Writing::port_text))]
fn push_port(text: &mut Vec<u8>, port: u8) -> Result<(), AllocError>
    ensures { OnOk result (text.new.items ≡ text.old.items ++ writing.port_text port) }
{
    push(text, b"[")?;
    push_dec(text, u64::from(port))?;
    push(text, b"]")
}

/// Appends the name and the port of a cable's far end.
#[tactic(auto, unfolding(crate::specs::Writing::far_end))]
fn push_far_end(text: &mut Vec<u8>, kind: NodeKind, guid: u64, port: u8) -> Result<(), AllocError>
    ensures { OnOk result (text.new.items ≡ text.old.items ++ writing.far_end kind guid port) }
{
    push_name(text, kind, guid)?;
    push_port(text, port)
}

/// Appends a port's GUID in parentheses, and nothing where it is 0.
#[tactic(auto, unfolding(crate::specs::Writing::port_guid_text))]
fn push_port_guid(alloc: Global, text: &mut Vec<u8>, guid: u64) -> Result<(), AllocError>
    ensures { OnOk result (text.new.items ≡ text.old.items ++ writing.port_guid_text guid) }
{
    if guid == 0 {
        return Ok(());
    }
    let digits = format!(in alloc; "({guid:x})")?;
    push(text, digits.as_bytes())
}

/// Appends a port in brackets, and its GUID in parentheses.
#[tactic(auto, unfolding(crate::specs::Writing::port_with_guid))]
fn push_port_with_guid(
    alloc: Global,
    text: &mut Vec<u8>,
    port: u8,
    guid: u64,
) -> Result<(), AllocError>
    ensures { OnOk result (text.new.items ≡ text.old.items ++ writing.port_with_guid port guid) }
{
    push_port(text, port)?;
    push_port_guid(alloc, text, guid)
}

/// Appends a description in quotes.
#[tactic(auto, unfolding(crate::specs::Writing::in_quotes))]
fn push_description(text: &mut Vec<u8>, desc: &Desc) -> Result<(), AllocError>
    ensures { OnOk result (text.new.items ≡ text.old.items ++ writing.in_quotes desc.now) }
{
    push(text, b"\"")?;
    push(text, desc.bytes())?;
    push(text, b"\"")
}

/// Appends a LID and an LMC of 0.
#[tactic(auto, unfolding(crate::specs::Writing::address_text))]
fn push_address(text: &mut Vec<u8>, lid: Lid) -> Result<(), AllocError>
    ensures { OnOk result (text.new.items ≡ text.old.items ++ writing.address_text lid.0) }
{
    push(text, b"lid ")?;
    push_dec(text, u64::from(lid.0))?;
    push(text, b" lmc 0")
}

/// Appends the description and the LID that end a port line.
#[tactic(auto, unfolding(crate::specs::Writing::described))]
fn push_described(text: &mut Vec<u8>, desc: &Desc, lid: Lid) -> Result<(), AllocError>
    ensures { OnOk result (text.new.items ≡ text.old.items ++ writing.described desc.now lid.0) }
{
    push_description(text, desc)?;
    push(text, b" lid ")?;
    push_dec(text, u64::from(lid.0))?;
    push(text, b"\n")
}

/// Appends a node's head up to its description.
#[tactic(auto, unfolding(crate::specs::Writing::head_text))]
fn push_head(
    text: &mut Vec<u8>,
    kind: NodeKind,
    ports: u8,
    guid: u64,
    desc: &Desc,
) -> Result<(), AllocError>
    ensures { OnOk result (text.new.items ≡ text.old.items ++ writing.head_text kind ports guid desc.now) }
{
    let word: &[u8] = match kind {
        NodeKind::Switch => b"Switch\t",
        NodeKind::Adapter => b"Ca\t",
    };
    push(text, word)?;
    push_dec(text, u64::from(ports))?;
    push(text, b" ")?;
    push_name(text, kind, guid)?;
    push(text, b"\t\t# ")?;
    push_description(text, desc)
}

/// Appends a switch's head.
#[tactic(auto, unfolding(crate::specs::Writing::switch_head_text))]
fn push_switch_head(text: &mut Vec<u8>, row: &SwitchRow) -> Result<(), AllocError>
    ensures { OnOk result (text.new.items ≡ text.old.items ++ writing.switch_head_text row.now) }
{
    push_head(text, NodeKind::Switch, row.ports, row.guid, &row.desc)?;
    push(text, b" base port 0 ")?;
    push_address(text, row.lid)?;
    push(text, b"\n")
}

/// Appends an adapter's head.
#[tactic(auto, unfolding(crate::specs::Writing::adapter_head_text))]
fn push_adapter_head(text: &mut Vec<u8>, row: &AdapterRow) -> Result<(), AllocError>
    ensures { OnOk result (text.new.items ≡ text.old.items ++ writing.adapter_head_text row.now) }
{
    push_head(text, NodeKind::Adapter, row.ports, row.guid, &row.desc)?;
    push(text, b"\n")
}

/// Appends the port line of a channel, under its switch.
#[tactic(auto, unfolding(crate::specs::Writing::channel_text))]
fn push_channel(text: &mut Vec<u8>, fabric: &Fabric, row: ChannelRow) -> Result<(), AllocError>
    requires { row.tip.0 < length fabric.now.switches }
    ensures { OnOk result (text.new.items ≡ text.old.items ++ writing.channel_text fabric.now row) }
{
    let far = fabric.switch(row.tip);
    push_port(text, row.port)?;
    push(text, b"\t")?;
    push_far_end(text, NodeKind::Switch, far.guid, row.tip_port)?;
    push(text, b"\t\t# ")?;
    push_described(text, &far.desc, far.lid)
}

/// Appends the port line of a terminal, under its switch.
#[tactic(auto, unfolding(crate::specs::Writing::terminal_text))]
fn push_terminal(
    alloc: Global,
    text: &mut Vec<u8>,
    fabric: &Fabric,
    row: TerminalRow,
) -> Result<(), AllocError>
    requires { row.adapter < length fabric.now.adapters }
    ensures { OnOk result (text.new.items ≡ text.old.items ++ writing.terminal_text fabric.now row) }
{
    let far = fabric.adapter(row.adapter);
    push_port(text, row.port)?;
    push(text, b"\t")?;
    push_far_end(text, NodeKind::Adapter, far.guid, row.adapter_port)?;
    push_port_guid(alloc, text, row.port_guid)?;
    push(text, b"\t\t# ")?;
    push_described(text, &far.desc, row.lid)
}

/// Appends the port line of a terminal, under its adapter.
#[tactic(auto, unfolding(crate::specs::Writing::adapter_port_text))]
fn push_adapter_port(
    alloc: Global,
    text: &mut Vec<u8>,
    fabric: &Fabric,
    row: TerminalRow,
) -> Result<(), AllocError>
    requires { row.switch.0 < length fabric.now.switches }
    ensures { OnOk result (text.new.items ≡ text.old.items ++ writing.adapter_port_text fabric.now row) }
{
    let far = fabric.switch(row.switch);
    push_port_with_guid(alloc, text, row.adapter_port, row.port_guid)?;
    push(text, b"\t")?;
    push_far_end(text, NodeKind::Switch, far.guid, row.port)?;
    push(text, b"\t\t# ")?;
    push_address(text, row.lid)?;
    push(text, b" ")?;
    push_described(text, &far.desc, far.lid)
}

/// The channel that leaves a switch by a port.
#[tactic(auto, using(std::proofs::lemmas::Grind::common_steps, crate::proofs::Rows::found, crate::proofs::Rows::none_found, crate::proofs::Rows::tip_is_switch))]
fn channel_by(fabric: &Fabric, switch: SwitchId, port: u8) -> Option<ChannelRow>
    requires switch { switch.0 < length fabric.now.switches }
    requires rows { IsFabric fabric.now }
    ensures row { result ≡ find (leaves_by switch.0 port) fabric.now.channels }
    ensures tip { IfSome result (λ row. row.tip.0 < length fabric.now.switches) }
{
    let channel = fabric.channel_at(switch, port)?;
    Some(fabric.channel(channel))
}

/// The terminal at a port of a switch.
#[tactic(auto, using(std::proofs::lemmas::Grind::common_steps, crate::proofs::Rows::found, crate::proofs::Rows::none_found, crate::proofs::Rows::terminal_has_adapter))]
fn terminal_by(fabric: &Fabric, switch: SwitchId, port: u8) -> Option<TerminalRow>
    requires switch { switch.0 < length fabric.now.switches }
    requires rows { IsFabric fabric.now }
    ensures row { result ≡ find (is_cabled_at switch.0 port) fabric.now.terminals }
    ensures adapter { IfSome result (λ row. row.adapter < length fabric.now.adapters) }
{
    let terminal = fabric.terminal_at(switch, port)?;
    Some(fabric.terminal(terminal))
}

/// Appends the line of what is cabled at a port of a switch, if anything is.
fn push_switch_port(
    alloc: Global,
    text: &mut Vec<u8>,
    fabric: &Fabric,
    switch: SwitchId,
    port: u8,
) -> Result<(), AllocError>
    requires switch { switch.0 < length fabric.now.switches }
    requires rows { IsFabric fabric.now }
    ensures { OnOk result (text.new.items ≡ text.old.items ++ writing.switch_port_text fabric.now switch.0 port) }
{
    if let Some(row) = channel_by(fabric, switch, port) {
        push_channel(text, fabric, row)
    } else if let Some(row) = terminal_by(fabric, switch, port) {
        push_terminal(alloc, text, fabric, row)
    } else {
        Ok(())
    }
}

/// Appends the line of the terminal on a port of an adapter, if one is there.
fn push_adapter_line(
    alloc: Global,
    text: &mut Vec<u8>,
    fabric: &Fabric,
    terminals: &HashMap<(u32, u8), TerminalRow>,
    adapter: u32,
    port: u8,
) -> Result<(), AllocError>
    requires rows { IsFabric fabric.now }
    requires terminals { FindsAmong fabric.now.terminals terminals.now }
    ensures { OnOk result (text.new.items ≡ text.old.items ++ writing.adapter_port_line fabric.now adapter port) }
{
    match terminals.get(&(adapter, port)) {
        Some(row) => push_adapter_port(alloc, text, fabric, *row),
        None => Ok(()),
    }
}

/// Appends the lines of a switch's ports, ascending.
fn push_switch_ports(
    alloc: Global,
    text: &mut Vec<u8>,
    fabric: &Fabric,
    switch: SwitchId,
    ports: u8,
) -> Result<(), AllocError>
    requires switch { switch.0 < length fabric.now.switches }
    requires rows { IsFabric fabric.now }
    ensures { OnOk result (text.new.items ≡ text.old.items ++ flat_map (writing.switch_port_text fabric.now switch.0) (port_numbers ports)) }
{
    for port in 1..=ports {
        push_switch_port(alloc, text, fabric, switch, port)?;
    }
    Ok(())
}

/// Appends a switch with its ports, and an empty line.
#[tactic(auto, unfolding(crate::specs::Writing::switch_text))]
fn push_switch(
    alloc: Global,
    text: &mut Vec<u8>,
    fabric: &Fabric,
    switch: SwitchId,
) -> Result<(), AllocError>
    requires switch { switch.0 < length fabric.now.switches }
    requires rows { IsFabric fabric.now }
    ensures { OnOk result (IfSome (slice_get fabric.now.switches switch.0) (λ row. text.new.items ≡ text.old.items ++ writing.switch_text fabric.now (switch.0, row))) }
{
    let row = fabric.switch(switch);
    push_switch_head(text, row)?;
    push_switch_ports(alloc, text, fabric, switch, row.ports)?;
    push(text, b"\n")
}

/// Appends the lines of an adapter's ports, ascending.
fn push_adapter_ports(
    alloc: Global,
    text: &mut Vec<u8>,
    fabric: &Fabric,
    terminals: &HashMap<(u32, u8), TerminalRow>,
    adapter: u32,
    ports: u8,
) -> Result<(), AllocError>
    requires rows { IsFabric fabric.now }
    requires terminals { FindsAmong fabric.now.terminals terminals.now }
    ensures { OnOk result (text.new.items ≡ text.old.items ++ flat_map (writing.adapter_port_line fabric.now adapter) (port_numbers ports)) }
{
    for port in 1..=ports {
        push_adapter_line(alloc, text, fabric, terminals, adapter, port)?;
    }
    Ok(())
}

/// Appends an adapter with its ports, and an empty line.
#[tactic(auto, unfolding(crate::specs::Writing::adapter_text))]
fn push_adapter(
    alloc: Global,
    text: &mut Vec<u8>,
    fabric: &Fabric,
    terminals: &HashMap<(u32, u8), TerminalRow>,
    adapter: u32,
) -> Result<(), AllocError>
    requires adapter { adapter < length fabric.now.adapters }
    requires rows { IsFabric fabric.now }
    requires terminals { FindsAmong fabric.now.terminals terminals.now }
    ensures { OnOk result (IfSome (slice_get fabric.now.adapters adapter) (λ row. text.new.items ≡ text.old.items ++ writing.adapter_text fabric.now (adapter, row))) }
{
    let row = fabric.adapter(adapter);
    push_adapter_head(text, row)?;
    push_adapter_ports(alloc, text, fabric, terminals, adapter, row.ports)?;
    push(text, b"\n")
}

/// Appends the switches, by number.
fn push_switches(alloc: Global, text: &mut Vec<u8>, fabric: &Fabric) -> Result<(), AllocError>
    ensures kept { IsFabric fabric.now }
    ensures ok { OnOk result (text.new.items ≡ text.old.items ++ flat_map (writing.switch_text fabric.now) (enumerate_from 0 fabric.now.switches)) }
{
    for switch in 0..fabric.switches() {
        push_switch(alloc, text, fabric, SwitchId(switch))?;
    }
    Ok(())
}

/// Appends the adapters, by number.
fn push_adapters(alloc: Global, text: &mut Vec<u8>, fabric: &Fabric) -> Result<(), AllocError>
    ensures { OnOk result (text.new.items ≡ text.old.items ++ flat_map (writing.adapter_text fabric.now) (enumerate_from 0 fabric.now.adapters)) }
{
    let terminals = terminals_by_adapter_port(alloc, fabric)?;
    for adapter in 0..fabric.adapters() {
        push_adapter(alloc, text, fabric, &terminals, adapter)?;
    }
    Ok(())
}

/// The text of a fabric in the shape that `ibnetdiscover` prints: the switches by number and then the
/// adapters by number, each with its port lines by ascending port and an empty line. Speeds aren't kept, and
/// aren't written. Time: the ports of all nodes and the bytes of the text. Memory: the text, and one entry a
/// terminal.
#[tactic(auto, unfolding(crate::specs::Writing::text_of))]
pub fn write(alloc: Global, fabric: &Fabric) -> Result<Vec<u8>, AllocError>
    ensures text { IfOk result (λ bytes. bytes.items ≡ writing.text_of fabric.now) }
    // Read and built, it is the same fabric, unless a cable leads from a switch to itself.
    ensures again { IfOk result (λ bytes. HasNoOwnCable fabric.now → IsTextOf bytes.items fabric.now) }
{
    let mut text = Vec::new(alloc);
    push_switches(alloc, &mut text, fabric)?;
    push_adapters(alloc, &mut text, fabric)?;
    Ok(text)
}
