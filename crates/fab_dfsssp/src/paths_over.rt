//! The paths over an edge: those whose route contains its two channels, one directly after the other.
//!
//! They are found against the entries. First come the paths that begin with the edge, one for each LID at most; then,
//! layer after layer, the paths whose first channel leads to the switch of one in the layer before. The first channel of
//! a path is that at the port of the switch's entry, so no more than the entry is looked at. A channel stands at one
//! place of a route, so the layers end. It takes a look at each LID, and at each channel that leads to the switch of a
//! path that is found; memory: some 16 bytes for each of these paths.
ghost use Rattle.std.specs.Prelude.{◌≡◌, ℕ, suc, ◌<◌, ◌↔◌, length, Contains, IfOk, IsTrue, OnOk};
ghost use Rattle.fab_model.specs.WellFormed.{IsFabric};
ghost use Rattle.fab_tables.specs.Entries.{entry};
ghost use Rattle.fab_tables.specs.Fit.{EntriesFit};
ghost use Rattle.fab_tables.specs.Reaching.{IsToward};
ghost use Rattle.fab_sssp.specs.LeastWeightTables.{AreLeastWeightTables};
ghost use Rattle.fab_dfsssp.specs.declared.paths_over.Path.{Path as AnyPath};
ghost use Rattle.fab_dfsssp.specs.PathsOver.{IsPathOf, StandsAt, ArePathsOver, AreLayer, AddsBehind};

use fab_model::{ChannelId, Fabric, Lid, SwitchId};
use fab_tables::{Tables, follow};
use std::alloc::{AllocError, Global};

/// A path, by the switch where it begins and its LID.
#[derive(Clone, Copy, Debug, PartialEq, Eq)]
pub(crate) struct Path {
    pub(crate) from: SwitchId,
    pub(crate) lid: Lid,
}

/// Each path over an edge. The error is want of memory.
pub(crate) fn paths_over(
    alloc: Global,
    fabric: &Fabric,
    tables: &Tables,
    edge: (u32, u32),
) -> Result<Vec<Path>, AllocError>
    requires fabric { IsFabric fabric.now }
    requires tables { AreLeastWeightTables fabric.now tables.now }
    requires edge { edge.0 < length fabric.now.channels }
    ensures { IfOk result (λ paths. ArePathsOver fabric.now tables.now edge paths.items) }
{
    let mut paths = Vec::new(alloc);
    let mut layer = paths_from(alloc, fabric, tables, edge)?;
    while !layer.is_empty() {
        let behind = paths_behind(alloc, fabric, tables, &layer)?;
        paths.append(&mut layer)?;
        layer = behind;
    }
    Ok(paths)
}

/// The paths that begin with an edge.
fn paths_from(
    alloc: Global,
    fabric: &Fabric,
    tables: &Tables,
    edge: (u32, u32),
) -> Result<Vec<Path>, AllocError>
    requires fabric { IsFabric fabric.now }
    requires tables { EntriesFit fabric.now tables.now }
    requires edge { edge.0 < length fabric.now.channels }
    ensures { IfOk result (λ paths. AreLayer fabric.now tables.now edge 0 paths.items) }
{
    let first = fabric.channel(ChannelId(edge.0));
    let mut paths = Vec::new(alloc);
    for lid in fabric.lids_in_use() {
        let path = Path {
            from: first.tail,
            lid: *lid,
        };
        if sends_by(tables, path, first.port) && begins_with(fabric, tables, path, edge) {
            paths.push(path)?;
        }
    }
    Ok(paths)
}

/// Whether the first two channels of a path are those of an edge.
fn begins_with(fabric: &Fabric, tables: &Tables, path: Path, edge: (u32, u32)) -> bool
    requires toward { IsToward fabric.now tables.now path.lid.0 }
    requires switch { path.from.0 < length fabric.now.switches }
    ensures { IsTrue result ↔ StandsAt fabric.now tables.now edge 0 path.from.0 path.lid.0 }
{
    let mut route = follow(fabric, tables, path.from, path.lid);
    route.next() == Some(ChannelId(edge.0)) && route.next() == Some(ChannelId(edge.1))
}

/// The paths whose first channel leads to the switch of one of these, and that go on as it does.
fn paths_behind(
    alloc: Global,
    fabric: &Fabric,
    tables: &Tables,
    layer: &[Path],
) -> Result<Vec<Path>, AllocError>
    requires fabric { IsFabric fabric.now }
    requires tables { AreLeastWeightTables fabric.now tables.now }
    requires layer { (p : AnyPath) → Contains layer.now p → IsPathOf fabric.now p }
    ensures { IfOk result (λ behind. (edge : ℕ × ℕ) (place : ℕ) → AreLayer fabric.now tables.now edge place layer.now → AreLayer fabric.now tables.now edge (suc place) behind.items) }
{
    let mut behind = Vec::new(alloc);
    for path in layer {
        push_behind(fabric, tables, *path, &mut behind)?;
    }
    Ok(behind)
}

/// Adds those of one path.
fn push_behind(
    fabric: &Fabric,
    tables: &Tables,
    path: Path,
    behind: &mut Vec<Path>,
) -> Result<(), AllocError>
    requires toward { IsToward fabric.now tables.now path.lid.0 }
    requires switch { path.from.0 < length fabric.now.switches }
    ensures { OnOk result (AddsBehind fabric.now tables.now path behind.old.items behind.new.items) }
{
    let (first, past) = fabric.leaves(path.from);
    for leaving in first..past {
        let row = fabric.channel(ChannelId(leaving));
        let before = Path {
            from: row.tip,
            lid: path.lid,
        };
        // the same cable leads back by the port at its other end
        if sends_by(tables, before, row.tip_port) {
            behind.push(before)?;
        }
    }
    Ok(())
}

/// Whether the entry at the switch of a path is this port: then the path begins with the channel that leaves by it.
fn sends_by(tables: &Tables, path: Path, port: u8) -> bool
    requires { path.from.0 < tables.now.switches }
    ensures { IsTrue result ↔ (entry tables.now path.from.0 path.lid.0 ≡ port) }
{
    tables.get(path.from, path.lid) == port
}
