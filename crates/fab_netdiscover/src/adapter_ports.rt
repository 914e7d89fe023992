//! The terminals of a fabric, found by adapter and port.
ghost use Rattle.std.specs.Prelude.{IfOk};
ghost use Rattle.fab_netdiscover.specs.AdapterPorts.{FindsAmong};

use fab_model::{Fabric, TerminalId, TerminalRow};
use std::alloc::{AllocError, Global};
use std::collections::HashMap;

/// The terminals by adapter and port.
pub(crate) fn terminals_by_adapter_port(
    alloc: Global,
    fabric: &Fabric,
) -> Result<HashMap<(u32, u8), TerminalRow>, AllocError>
    ensures { IfOk result (FindsAmong fabric.now.terminals) }
{
    let mut by_port = HashMap::new(alloc);
    for number in 0..fabric.terminals() {
        let row = fabric.terminal(TerminalId(number));
        let port = (row.adapter, row.adapter_port);
        if !by_port.contains_key(&port) {
            by_port.insert(port, row)?;
        }
    }
    Ok(by_port)
}
