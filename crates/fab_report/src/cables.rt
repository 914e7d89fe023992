//! The cables of rings, tori and trees, and the channels of cables. Time and memory: the rows, and sorting the channels.
ghost use Rattle.std.specs.Prelude.{◌≡◌, ◌+◌, ◌*◌, ◌<◌, ◌≤◌, ◌++◌, map, IfOk, OnOk};
ghost use Rattle.std.specs.List.{range_with_len};
ghost use Rattle.fab_report.specs.Cabling.{cable};
ghost use Rattle.fab_report.specs.Recipes as recipes;
ghost use Rattle.fab_report.specs.declared.recipe.Kind.TheVariants.{Ring, Torus, Tree};

use fab_model::{ChannelRow, SwitchId};
use std::alloc::{AllocError, Global};

/// The cable from a port of one switch to a port of another, as its channel that way.
pub(crate) fn cable(s: u32, port: u8, other: u32, other_port: u8) -> ChannelRow
    ensures { result ≡ cable s port other other_port }
{
    ChannelRow {
        tail: SwitchId(s),
        port,
        tip: SwitchId(other),
        tip_port: other_port,
    }
}

/// The cables of a ring.
pub(crate) fn ring_cables(alloc: Global, switches: u32) -> Result<Vec<ChannelRow>, AllocError>
    requires { switches ≤ 512 }
    ensures { IfOk result (λ rows. rows.items ≡ recipes.cables Ring switches 0 0) }
{
    let mut rows = Vec::new(alloc);
    for s in 0..switches {
        rows.push(cable(s, 1, (s + 1) % switches, 2))?;
    }
    Ok(rows)
}

/// The number of the switch at a column and a row of a torus.
fn at_grid(columns: u32, x: u32, y: u32) -> u32
    requires { y * columns + x < 1024 }
    ensures { result ≡ recipes.at_grid columns x y }
{
    y * columns + x
}

/// The cables of a torus of so many columns and rows.
pub(crate) fn torus_cables(
    alloc: Global,
    columns: u32,
    rows: u32,
) -> Result<Vec<ChannelRow>, AllocError>
    requires columns { 0 < columns }
    requires rows { 0 < rows }
    requires switches { columns * rows ≤ 512 }
    ensures { IfOk result (λ cables. cables.items ≡ recipes.cables Torus columns rows 0) }
{
    let mut cables = Vec::new(alloc);
    for s in 0..columns * rows {
        let x = s % columns;
        let y = s / columns;
        let right = at_grid(columns, (x + 1) % columns, y);
        let below = at_grid(columns, x, (y + 1) % rows);
        cables.push(cable(s, 1, right, 2))?;
        cables.push(cable(s, 3, below, 4))?;
    }
    Ok(cables)
}

/// The cables of a tree of so many leaf switches and top switches.
pub(crate) fn tree_cables(
    alloc: Global,
    leaves: u32,
    tops: u32,
) -> Result<Vec<ChannelRow>, AllocError>
    requires leaves { leaves ≤ 254 }
    requires tops { tops ≤ 127 }
    ensures { IfOk result (λ rows. rows.items ≡ recipes.cables Tree leaves tops 0) }
{
    let mut rows = Vec::new(alloc);
    for leaf in 0..leaves {
        push_leaf_cables(&mut rows, leaf, leaves, tops)?;
    }
    Ok(rows)
}

/// Adds the cables of a leaf switch, one to each top switch.
fn push_leaf_cables(
    rows: &mut Vec<ChannelRow>,
    leaf: u32,
    leaves: u32,
    tops: u32,
) -> Result<(), AllocError>
    requires leaf { leaf < leaves }
    requires leaves { leaves ≤ 254 }
    requires tops { tops ≤ 127 }
    ensures { OnOk result (rows.new.items ≡ rows.old.items ++ recipes.leaf_cables leaves tops leaf) }
{
    for top in 0..tops {
        rows.push(cable(leaf, top as u8 + 1, leaves + top, leaf as u8 + 1))?;
    }
    Ok(())
}

/// Both channels of each cable, by switch and port.
pub(crate) fn channels_of(
    alloc: Global,
    cables: &[ChannelRow],
) -> Result<Vec<ChannelRow>, AllocError>
    ensures { IfOk result (λ rows. rows.items ≡ recipes.channels_of cables.now) }
{
    let mut rows = Vec::new(alloc);
    for row in cables {
        rows.push(*row)?;
        rows.push(cable(row.tip.0, row.tip_port, row.tail.0, row.port))?;
    }
    rows.sort_by_key(|row| (row.tail, row.port))?;
    Ok(rows)
}
