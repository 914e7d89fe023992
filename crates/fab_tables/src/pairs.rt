//! The pairs of ports that have a lane map of their own, in the order of (switch, from port, to port).
ghost use Rattle.std.specs.Prelude.{◌≡◌, ◌+◌, ◌*◌, ◌<◌, ◌≤◌, length, map, find, None, Some, IfOk, IfErr, MatchOption, All, IsTrue, ◌↔◌};
ghost use Rattle.std.specs.List.{AllWithin};
ghost use Rattle.std.specs.List.Sorted.{IsStrictlyIncreasing};
ghost use Rattle.fab_tables.specs.LaneTables.{pair_key, is_pair};
ghost use Rattle.fab_tables.specs.PairPlaces.{StandsAt, GoesTo};
ghost use Rattle.fab_tables.specs.Fit.{PairFits};

use crate::lanes::PairRow;
use fab_model::{Fabric, SwitchId};
use std::collections::VecDeque;

/// How many pairs may have a map.
pub(crate) const PAIRS: usize = 65536;

fn key_of(switch: SwitchId, from_port: u8, to_port: u8) -> u64
    ensures { result ≡ switch.0 * 65536 + from_port * 256 + to_port }
{
    u64::from(switch.0) * 65536 + u64::from(from_port) * 256 + u64::from(to_port)
}

/// The number by which rows are in order.
pub(crate) fn key_of_row(row: &PairRow) -> u64
    ensures { result ≡ pair_key row.now }
{
    key_of(row.switch, row.from_port, row.to_port)
}

// The place of the first row whose key isn't below this one.
fn place_in(rows: &VecDeque<PairRow>, key: u64) -> usize
    requires { IsStrictlyIncreasing (map pair_key rows.now.items) }
    ensures within { result ≤ length rows.now.items }
    ensures below { AllWithin (λ row. pair_key row < key) rows.now.items 0 result }
    ensures above { AllWithin (λ row. key ≤ pair_key row) rows.now.items result (length rows.now.items) }
{
    rows.partition_point(|row| key_of_row(row) < key)
}

/// The place of the row of this key, or else the place at which it would stand.
pub(crate) fn search_in(rows: &VecDeque<PairRow>, key: u64) -> Result<usize, usize>
    requires { IsStrictlyIncreasing (map pair_key rows.now.items) }
    ensures found { IfOk result (StandsAt rows.now.items key) }
    ensures missing { IfErr result (GoesTo rows.now.items key) }
{
    let place = place_in(rows, key);
    match rows.get(place) {
        Some(row) if key_of_row(row) == key => Ok(place),
        _ => Err(place),
    }
}

/// The row of these ports.
pub(crate) fn pair_in(
    rows: &VecDeque<PairRow>,
    switch: SwitchId,
    from_port: u8,
    to_port: u8,
) -> Option<&PairRow>
    requires { IsStrictlyIncreasing (map pair_key rows.now.items) }
    ensures { MatchOption result (find (is_pair switch.0 from_port to_port) rows.now.items ≡ None) (λ row. find (is_pair switch.0 from_port to_port) rows.now.items ≡ Some row.now) }
{
    match search_in(rows, key_of(switch, from_port, to_port)) {
        Ok(place) => Some(&rows[place]),
        Err(_) => None,
    }
}

/// Whether the ports of each pair are ports of its switch.
pub(crate) fn pairs_fit(rows: &VecDeque<PairRow>, fabric: &Fabric) -> bool
    ensures { IsTrue result ↔ All (PairFits fabric.now) rows.now.items }
{
    rows.iter().all(|row| pair_fits(row, fabric))
}

fn pair_fits(row: &PairRow, fabric: &Fabric) -> bool
    ensures { IsTrue result ↔ PairFits fabric.now row.now }
{
    if row.switch.0 >= fabric.switches() {
        return false;
    }
    let ports = fabric.switch(row.switch).ports;
    row.from_port <= ports && row.to_port <= ports
}
