//! What heads and rows say, by their fields alone.
//!
//! Each call passes the bytes of its line and takes no memory; one that names a switch or a channel also looks
//! it up.
ghost use Rattle.std.specs.Prelude.{◌≡◌, ◌<◌, ◌≤◌, ◌≢◌, ℕ, List, All, IfSome, MatchOption, Some, None, drop, length, option_and_then, option_map, slice_index_or, take};
ghost use Rattle.fab_text.specs.Fields.{fields, dec, dec_up_to, hex, all_read, only_field};
ghost use Rattle.fab_model.specs.Topology.{switch_id, switch_of};
ghost use Rattle.fab_dump.specs.FieldsLeft.{AreNot};
ghost use Rattle.fab_dump.specs.Given.Given.{Number};
ghost use Rattle.fab_dump.specs.Lines.{head_guid, lanes_read, level_field, level_row, number_row, pair_row, table_guid, table_row};

use crate::fields::{Fields, dec, dec_up_to, hex};
use fab_model::{ChannelId, Fabric, SwitchId};
use fab_tables::PairRow;

/// How many LIDs a row has at most.
pub(crate) const ROW_LIDS: usize = 64;

/// The LID that a row begins with.
pub(crate) fn lid_in(field: &[u8]) -> Option<u16>
    ensures { result ≡ hex 4 field.now }
{
    match hex(4, field) {
        Some(lid) => Some(lid as u16),
        None => None,
    }
}

fn port_in(field: &[u8]) -> Option<u8>
    ensures { result ≡ dec 3 255 field.now }
{
    match dec(3, 255, field) {
        Some(port) => Some(port as u8),
        None => None,
    }
}

fn small_in(greatest: u8, field: &[u8]) -> Option<u8>
    ensures number { result ≡ dec_up_to greatest field.now }
    ensures below { IfSome result (λ n. n ≤ greatest) }
{
    match dec_up_to(u64::from(greatest), field) {
        Some(number) => Some(number as u8),
        None => None,
    }
}

/// A service level, or two dashes for none.
fn level_in(field: &[u8]) -> Option<Option<u8>>
    ensures level { result ≡ level_field field.now }
    ensures below { IfSome result (λ level. IfSome level (λ n. n < 16)) }
{
    if field == b"--".as_slice() {
        return Some(None);
    }
    match small_in(15, field) {
        Some(level) => Some(Some(level)),
        None => None,
    }
}

/// The field of a line that has no other.
pub(crate) fn only_field(line: &[u8]) -> Option<&[u8]>
    ensures { option_map (λ field. field.now) result ≡ only_field (fields line.now) }
{
    let mut fields = Fields::of(line);
    let field = fields.next()?;
    match fields.next() {
        Some(_) => None,
        None => Some(field),
    }
}

/// The GUID that the head of a table block names.
pub(crate) fn table_guid(line: &[u8]) -> Option<u64>
    ensures { result ≡ table_guid line.now }
{
    let mut fields = Fields::of(line);
    while let Some(field) = fields.next() {
        if field == b"guid".as_slice() {
            return hex(16, fields.next()?);
        }
    }
    None
}

/// What stands behind so many bytes as a text has.
pub(crate) fn behind<'t>(text: &[u8], line: &'t [u8]) -> &'t [u8]
    ensures { result.now ≡ drop (length text.now) line.now }
{
    if text.len() <= line.len() {
        &line[text.len()..]
    } else {
        &[]
    }
}

/// The GUID that another head names behind its text.
fn head_guid(text: &[u8], line: &[u8]) -> Option<u64>
    ensures { result ≡ head_guid text.now line.now }
{
    match only_field(behind(text, line))? {
        [guid @ .., b':'] => hex(16, guid),
        _ => None,
    }
}

/// The switch that another head names behind its text.
pub(crate) fn head_switch(fabric: &Fabric, text: &[u8], line: &[u8]) -> Option<SwitchId>
    ensures switch { result ≡ option_map switch_id (option_and_then (switch_of fabric.now) (head_guid text.now line.now)) }
    ensures within { IfSome result (λ s. s.0 < length fabric.now.switches) }
{
    fabric.switch_of(head_guid(text, line)?)
}

/// The LID and the port that a table row of one LID says. What follows them is passed over.
pub(crate) fn table_row(line: &[u8]) -> Option<(u16, u8)>
    ensures { result ≡ table_row (fields line.now) }
{
    let mut fields = Fields::of(line);
    let lid = lid_in(fields.next()?)?;
    let port = port_in(fields.next()?)?;
    Some((lid, port))
}

/// The LID and the level that a level row of one LID says.
pub(crate) fn level_row(line: &[u8]) -> Option<(u16, Option<u8>)>
    ensures row { result ≡ level_row (fields line.now) }
    ensures below { IfSome result (λ row. IfSome row.1 (λ n. n < 16)) }
{
    let mut fields = Fields::of(line);
    let lid = lid_in(fields.next()?)?;
    let level = level_in(fields.next()?)?;
    match fields.next() {
        Some(_) => None,
        None => Some((lid, level)),
    }
}

/// Sixteen lanes, and nothing else.
fn lanes_left(fields: &mut Fields) -> Option<[u8; 16]>
    ensures lanes { result ≡ lanes_read fields.old }
    ensures below { IfSome result (All (λ lane. lane < 16)) }
{
    let mut lanes = [0; 16];
    for level in 0..16 {
        lanes[level] = small_in(15, fields.next()?)?;
    }
    match fields.next() {
        Some(_) => None,
        None => Some(lanes),
    }
}

/// The row of a lane map: the lane of each of the sixteen levels.
pub(crate) fn lanes_in(line: &[u8]) -> Option<[u8; 16]>
    ensures lanes { result ≡ lanes_read (fields line.now) }
    ensures below { IfSome result (All (λ lane. lane < 16)) }
{
    lanes_left(&mut Fields::of(line))
}

/// So many ports, and nothing else.
pub(crate) fn ports_left(fields: &mut Fields, count: usize) -> Option<[u8; ROW_LIDS]>
    requires { count ≤ 64 }
    ensures { MatchOption result (AreNot count (all_read (dec 3 255) fields.old)) (λ ports. all_read (dec 3 255) fields.old ≡ Some (take count ports)) }
{
    let mut ports = [0; ROW_LIDS];
    for place in 0..count {
        ports[place] = port_in(fields.next()?)?;
    }
    match fields.next() {
        Some(_) => None,
        None => Some(ports),
    }
}

/// So many levels, and nothing else.
pub(crate) fn levels_left(fields: &mut Fields, count: usize) -> Option<[Option<u8>; ROW_LIDS]>
    requires { count ≤ 64 }
    ensures values { MatchOption result (AreNot count (all_read level_field fields.old)) (λ levels. all_read level_field fields.old ≡ Some (take count levels)) }
    ensures below { IfSome result (λ levels. (k : ℕ) → k < count → IfSome (slice_index_or levels k None) (λ n. n < 16)) }
{
    let mut levels = [None; ROW_LIDS];
    for place in 0..count {
        levels[place] = level_in(fields.next()?)?;
    }
    match fields.next() {
        Some(_) => None,
        None => Some(levels),
    }
}

/// A channel, a data lane and the number that a number row gives them.
pub(crate) fn number_row(fabric: &Fabric, line: &[u8]) -> Option<(ChannelId, u8, u32)>
    ensures row { option_map (λ row. Number row.0.0 row.1 row.2) result ≡ number_row fabric.now (fields line.now) }
    ensures channel { IfSome result (λ row. row.0.0 < length fabric.now.channels) }
    ensures lane { IfSome result (λ row. row.1 < 15) }
{
    let mut fields = Fields::of(line);
    let guid = hex(16, fields.next()?)?;
    let port = small_in(254, fields.next()?)?;
    let lane = small_in(14, fields.next()?)?;
    let number = dec_up_to(u64::from(u32::MAX), fields.next()?)? as u32;
    if fields.next().is_some() || number == 0 {
        return None;
    }
    let channel = fabric.channel_at(fabric.switch_of(guid)?, port)?;
    Some((channel, lane, number))
}

/// The map of a pair of ports of a switch that a pair row gives.
pub(crate) fn pair_row(fabric: &Fabric, switch: SwitchId, line: &[u8]) -> Option<PairRow>
    requires { switch.0 < length fabric.now.switches }
    ensures row { result ≡ pair_row fabric.now switch.0 (fields line.now) }
    ensures below { IfSome result (λ row. All (λ lane. lane < 16) row.map) }
{
    let ports = fabric.switch(switch).ports;
    let mut fields = Fields::of(line);
    let from = match fields.next()? {
        [_, from @ ..] => small_in(ports, from)?,
        [] => return None,
    };
    let to = match fields.next()? {
        [to @ .., b']'] => small_in(ports, to)?,
        _ => return None,
    };
    Some(PairRow {
        switch,
        from_port: from,
        to_port: to,
        map: lanes_left(&mut fields)?,
    })
}
