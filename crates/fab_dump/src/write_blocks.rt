//! The lines of a plan's text, block by block, appended to a text of bytes.
//!
//! Each call takes the time of the bytes that it appends, and room for them.
ghost use Rattle.std.specs.Prelude.{◌≡◌, ◌+◌, ◌-◌, ◌<◌, ◌++◌, ◌∷◌, [], All, IfOk, IfSome, OnOk, length, slice_get, slice_index};
ghost use Rattle.fab_model.specs.Topology.{lids_of};
ghost use Rattle.fab_model.specs.WellFormed.{IsFabric};
ghost use Rattle.fab_tables.specs.LaneTables.{AreLaneTables};
ghost use Rattle.fab_dump.specs.Writing as writing;
ghost use Rattle.fab_dump.specs.BlockValues.{value_text, numbers_of, AreOfSwitch, of_switch, BeginAt};

use crate::rows::ROW_LIDS;
use fab_model::{ChannelId, Fabric, Lid, SwitchId, SwitchRow};
use fab_tables::{Lanes, PairRow, Plan, Tables};
use fab_text::{push, push_dec, push_hex4, push_hex16, push_port3, push_two};
use std::alloc::AllocError;

/// What the rows of a block tell of each LID.
#[derive(Drop)]
enum BlockValues<'a> {
    /// The port by which a switch forwards to it.
    Ports(&'a Tables),
    /// The service level of a source for it.
    Levels(&'a Lanes),
}

/// Appends a LID: `0x` and four hexadecimal digits.
#[tactic(auto, unfolding(crate::specs::Writing::hex4))]
pub fn push_lid(text: &mut Vec<u8>, lid: Lid) -> Result<(), AllocError>
    ensures { OnOk result (text.new.items ≡ text.old.items ++ writing.hex4 lid.0) }
{
    push(text, b"0x")?;
    push_hex4(text, lid.0)
}

/// Appends a GUID: `0x` and sixteen hexadecimal digits.
#[tactic(auto, unfolding(crate::specs::Writing::hex16))]
pub fn push_guid(text: &mut Vec<u8>, guid: u64) -> Result<(), AllocError>
    ensures { OnOk result (text.new.items ≡ text.old.items ++ writing.hex16 guid) }
{
    push(text, b"0x")?;
    push_hex16(text, guid)
}

/// Appends a port: three decimal digits.
#[tactic(auto, unfolding(crate::specs::Writing::port3))]
pub fn push_port(text: &mut Vec<u8>, port: u8) -> Result<(), AllocError>
    ensures { OnOk result (text.new.items ≡ text.old.items ++ writing.port3 port) }
{
    push_port3(text, port)
}

/// Appends a level or a lane.
#[tactic(auto, unfolding(crate::specs::Writing::two))]
fn push_lane(text: &mut Vec<u8>, lane: u8) -> Result<(), AllocError>
    requires { lane < 16 }
    ensures { OnOk result (text.new.items ≡ text.old.items ++ writing.two lane) }
{
    push_two(text, lane)
}

/// The version of a plan's text.
fn version_of(plan: &Plan) -> u64
    ensures { result ≡ writing.version_of plan.now.lanes }
{
    match &plan.lanes {
        Some(lanes) if lanes.pairs() > 0 => 3,
        _ => 2,
    }
}

/// Appends the first line of a plan's text.
#[tactic(auto, unfolding(crate::specs::Writing::version_text))]
fn push_version(text: &mut Vec<u8>, plan: &Plan) -> Result<(), AllocError>
    ensures { OnOk result (text.new.items ≡ text.old.items ++ writing.version_text plan.now.lanes) }
{
    push(text, b"fabroute plan ")?;
    push_dec(text, version_of(plan))
}

/// Appends a plan's lane count.
fn push_count(text: &mut Vec<u8>, plan: &Plan) -> Result<(), AllocError>
    ensures { OnOk result (text.new.items ≡ text.old.items ++ writing.count_text plan.now.lanes) }
{
    match &plan.lanes {
        Some(lanes) => push_dec(text, u64::from(lanes.count())),
        None => push(text, b"none"),
    }
}

/// Appends the line of a plan's lane count.
#[tactic(auto, unfolding(crate::specs::Writing::lanes_line))]
fn push_lanes_line(text: &mut Vec<u8>, plan: &Plan) -> Result<(), AllocError>
    ensures { OnOk result (text.new.items ≡ text.old.items ++ writing.lanes_line plan.now.lanes) }
{
    push(text, b"lanes ")?;
    push_count(text, plan)
}

/// Appends the lines that a plan's text begins with: its version and its lane count.
pub(crate) fn push_start(text: &mut Vec<u8>, plan: &Plan) -> Result<(), AllocError>
    ensures { OnOk result (text.new.items ≡ text.old.items ++ writing.lines_text (writing.version_text plan.now.lanes ∷ writing.lanes_line plan.now.lanes ∷ [])) }
{
    push_version(text, plan)?;
    push(text, b"\n")?;
    push_lanes_line(text, plan)?;
    push(text, b"\n")
}

/// Appends the first half of the line that opens a table block: the least and the greatest LID in use.
#[tactic(auto, unfolding(crate::specs::Writing::lids_text))]
fn push_lids(text: &mut Vec<u8>, lids: &[Lid]) -> Result<(), AllocError>
    requires { 0 < length lids.now }
    ensures { OnOk result (text.new.items ≡ text.old.items ++ writing.lids_text (numbers_of lids.now)) }
{
    push(text, b"Unicast lids [")?;
    push_lid(text, lids[0])?;
    push(text, b"-")?;
    push_lid(text, lids[lids.len() - 1])?;
    push(text, b"] of switch ")
}

/// Appends the second half of that line: the switch.
#[tactic(auto, unfolding(crate::specs::Writing::switch_text))]
fn push_switch(text: &mut Vec<u8>, row: &SwitchRow) -> Result<(), AllocError>
    ensures { OnOk result (text.new.items ≡ text.old.items ++ writing.switch_text row.now) }
{
    push(text, b"Lid ")?;
    push_dec(text, u64::from(row.lid.0))?;
    push(text, b" guid ")?;
    push_guid(text, row.guid)?;
    push(text, b" (")?;
    push(text, row.desc.bytes())?;
    push(text, b"):")
}

/// Appends the line that opens the table block of a switch, without a line feed.
#[tactic(auto, unfolding(crate::specs::Writing::table_head_text))]
pub fn push_table_head(
    text: &mut Vec<u8>,
    fabric: &Fabric,
    row: &SwitchRow,
) -> Result<(), AllocError>
    requires { 0 < length (lids_of fabric.now) }
    ensures { OnOk result (text.new.items ≡ text.old.items ++ writing.table_head_text (lids_of fabric.now) row.now) }
{
    push_lids(text, fabric.lids_in_use())?;
    push_switch(text, row)
}

/// Appends what a row tells of a LID.
fn push_value(
    text: &mut Vec<u8>,
    values: &BlockValues,
    switch: SwitchId,
    lid: Lid,
) -> Result<(), AllocError>
    requires { AreOfSwitch values.now switch.0 }
    ensures { OnOk result (text.new.items ≡ text.old.items ++ value_text values.now switch.0 lid.0) }
{
    match values {
        BlockValues::Ports(tables) => push_port(text, tables.get(switch, lid)),
        BlockValues::Levels(lanes) => match lanes.level(switch, lid) {
            Some(level) => push_lane(text, level),
            None => push(text, b"--"),
        },
    }
}

/// Appends a row: its first LID, and what it tells of each.
#[tactic(auto, unfolding(crate::specs::Writing::row_text))]
fn push_row(
    text: &mut Vec<u8>,
    lids: &[Lid],
    values: &BlockValues,
    switch: SwitchId,
) -> Result<(), AllocError>
    requires some { 0 < length lids.now }
    requires values { AreOfSwitch values.now switch.0 }
    ensures { OnOk result (text.new.items ≡ text.old.items ++ writing.row_text (value_text values.now switch.0) (numbers_of lids.now)) }
{
    push_lid(text, lids[0])?;
    for lid in lids {
        push(text, b" ")?;
        push_value(text, values, switch, *lid)?;
    }
    Ok(())
}

/// Appends the rows of a block, each for up to 64 of the LIDs in use.
fn push_rows(
    text: &mut Vec<u8>,
    fabric: &Fabric,
    values: &BlockValues,
    switch: SwitchId,
) -> Result<(), AllocError>
    requires { AreOfSwitch values.now switch.0 }
    ensures { OnOk result (text.new.items ≡ text.old.items ++ writing.lines_text (writing.block_rows fabric.now (value_text values.now switch.0))) }
{
    let lids = fabric.lids_in_use();
    for number in 0..lids.len().div_ceil(ROW_LIDS) {
        let first = number * ROW_LIDS;
        let past = lids.len().min(first + ROW_LIDS);
        push_row(text, &lids[first..past], values, switch)?;
        push(text, b"\n")?;
    }
    Ok(())
}

/// Appends the table block of a switch.
pub(crate) fn push_table_block(
    text: &mut Vec<u8>,
    fabric: &Fabric,
    tables: &Tables,
    switch: SwitchId,
) -> Result<(), AllocError>
    requires switch { switch.0 < length fabric.now.switches }
    requires tables { switch.0 < tables.now.switches }
    ensures { OnOk result (IfSome (slice_get fabric.now.switches switch.0) (λ row. text.new.items ≡ text.old.items ++ writing.lines_text (writing.table_block fabric.now tables.now (switch.0, row)))) }
{
    push_table_head(text, fabric, fabric.switch(switch))?;
    push(text, b"\n")?;
    push_rows(text, fabric, &BlockValues::Ports(tables), switch)
}

/// Appends the line that opens a levels block or a lane map: words, and a GUID with a colon.
#[tactic(auto, unfolding(crate::specs::Writing::guid_head_text))]
fn push_guid_head(text: &mut Vec<u8>, words: &[u8], guid: u64) -> Result<(), AllocError>
    ensures { OnOk result (text.new.items ≡ text.old.items ++ writing.guid_head_text words.now guid) }
{
    push(text, words)?;
    push_guid(text, guid)?;
    push(text, b":")
}

/// Appends the levels block of a switch, if it is a source.
pub(crate) fn push_levels_block(
    text: &mut Vec<u8>,
    fabric: &Fabric,
    lanes: &Lanes,
    switch: SwitchId,
) -> Result<(), AllocError>
    requires switch { switch.0 < length fabric.now.switches }
    requires lanes { AreLaneTables lanes.now }
    requires levels { switch.0 < lanes.now.switches }
    ensures { OnOk result (IfSome (slice_get fabric.now.switches switch.0) (λ row. text.new.items ≡ text.old.items ++ writing.lines_text (writing.levels_block fabric.now lanes.now (switch.0, row)))) }
{
    if !fabric.has_terminal(switch) {
        return Ok(());
    }
    push_guid_head(text, b"Levels of switch guid ", fabric.switch(switch).guid)?;
    push(text, b"\n")?;
    push_rows(text, fabric, &BlockValues::Levels(lanes), switch)
}

/// Appends lanes, with a space between each two.
#[tactic(auto, unfolding(crate::specs::Writing::lanes_text))]
fn push_lanes(text: &mut Vec<u8>, lanes: &[u8]) -> Result<(), AllocError>
    requires { All (λ lane. lane < 16) lanes.now }
    ensures { OnOk result (text.new.items ≡ text.old.items ++ writing.lanes_text lanes.now) }
{
    let [first, rest @ ..] = lanes else {
        return Ok(());
    };
    push_lane(text, *first)?;
    for lane in rest {
        push(text, b" ")?;
        push_lane(text, *lane)?;
    }
    Ok(())
}

/// The general lane map of a switch.
fn general_map(lanes: &Lanes, switch: SwitchId) -> [u8; 16]
    requires { switch.0 < lanes.now.switches }
    ensures { result ≡ writing.general_map lanes.now switch.0 }
{
    let mut map = [0; 16];
    for level in 0..16u8 {
        map[usize::from(level)] = lanes.lane(switch, level);
    }
    map
}

/// Appends the row of a pair of ports.
#[tactic(auto, unfolding(crate::specs::Writing::pair_text))]
fn push_pair(text: &mut Vec<u8>, row: &PairRow) -> Result<(), AllocError>
    requires { All (λ lane. lane < 16) row.now.map }
    ensures { OnOk result (text.new.items ≡ text.old.items ++ writing.pair_text row.now) }
{
    push(text, b"[")?;
    push_port(text, row.from_port)?;
    push(text, b" ")?;
    push_port(text, row.to_port)?;
    push(text, b"] ")?;
    push_lanes(text, &row.map)
}

/// The pair of ports at a place, if it is one of this switch.
fn pair_of(lanes: &Lanes, switch: SwitchId, index: u32) -> Option<PairRow>
    ensures { result ≡ of_switch switch.0 (slice_get lanes.now.pairs index) }
{
    match lanes.pair_at(index) {
        Some(row) if row.switch == switch => Some(row),
        _ => None,
    }
}

/// Appends the rows of a switch's pairs of ports, the first of which stands at this place. It gives the place
/// past the last.
fn push_pairs(
    text: &mut Vec<u8>,
    lanes: &Lanes,
    switch: SwitchId,
    first: u32,
) -> Result<u32, AllocError>
    requires lanes { AreLaneTables lanes.now }
    requires first { BeginAt lanes.now.pairs switch.0 first }
    ensures rows { IfOk result (λ _. text.new.items ≡ text.old.items ++ writing.lines_text (writing.pair_rows lanes.now.pairs switch.0)) }
    ensures past { IfOk result (BeginAt lanes.now.pairs (switch.0 + 1)) }
{
    for next in first..lanes.pairs() {
        let Some(row) = pair_of(lanes, switch, next) else {
            return Ok(next);
        };
        push_pair(text, &row)?;
        push(text, b"\n")?;
    }
    Ok(lanes.pairs())
}

/// Appends the general lane map of a switch, and the line that opens it.
fn push_general_map(
    text: &mut Vec<u8>,
    lanes: &Lanes,
    switch: SwitchId,
    guid: u64,
) -> Result<(), AllocError>
    requires lanes { AreLaneTables lanes.now }
    requires switch { switch.0 < lanes.now.switches }
    ensures { OnOk result (text.new.items ≡ text.old.items ++ writing.lines_text (writing.general_block lanes.now switch.0 guid)) }
{
    push_guid_head(text, b"Lane map of switch guid ", guid)?;
    push(text, b"\n")?;
    push_lanes(text, &general_map(lanes, switch))?;
    push(text, b"\n")
}

/// Appends the lane map of a switch with the rows of its pairs of ports, the first of which stands at this
/// place. It gives the place past the last.
pub(crate) fn push_map_block(
    text: &mut Vec<u8>,
    fabric: &Fabric,
    lanes: &Lanes,
    switch: SwitchId,
    first: u32,
) -> Result<u32, AllocError>
    requires switch { switch.0 < length fabric.now.switches }
    requires lanes { AreLaneTables lanes.now }
    requires maps { switch.0 < lanes.now.switches }
    requires first { BeginAt lanes.now.pairs switch.0 first }
    ensures rows { IfOk result (λ _. IfSome (slice_get fabric.now.switches switch.0) (λ row. text.new.items ≡ text.old.items ++ writing.lines_text (writing.map_block lanes.now (switch.0, row)))) }
    ensures past { IfOk result (BeginAt lanes.now.pairs (switch.0 + 1)) }
{
    push_general_map(text, lanes, switch, fabric.switch(switch).guid)?;
    push_pairs(text, lanes, switch, first)
}

/// Appends a number row.
#[tactic(auto, unfolding(crate::specs::Writing::number_text))]
fn push_number(
    text: &mut Vec<u8>,
    guid: u64,
    port: u8,
    lane: u8,
    number: u32,
) -> Result<(), AllocError>
    requires { lane < 16 }
    ensures { OnOk result (text.new.items ≡ text.old.items ++ writing.number_text guid port lane number) }
{
    push_guid(text, guid)?;
    push(text, b" ")?;
    push_port(text, port)?;
    push(text, b" ")?;
    push_lane(text, lane)?;
    push(text, b" ")?;
    push_dec(text, u64::from(number))
}

/// Appends the line of a number row, if there is a number.
fn push_number_line(
    text: &mut Vec<u8>,
    guid: u64,
    port: u8,
    lane: u8,
    number: u32,
) -> Result<(), AllocError>
    requires { lane < 16 }
    ensures { OnOk result (text.new.items ≡ text.old.items ++ writing.lines_text (writing.number_row guid port lane number)) }
{
    if number == 0 {
        return Ok(());
    }
    push_number(text, guid, port, lane, number)?;
    push(text, b"\n")
}

/// Appends the number rows of a channel, as they stand in the text of a plan.
pub fn push_numbers(
    text: &mut Vec<u8>,
    fabric: &Fabric,
    lanes: &Lanes,
    channel: ChannelId,
) -> Result<(), AllocError>
    requires rows { IsFabric fabric.now }
    requires channel { channel.0 < length fabric.now.channels }
    requires numbers { channel.0 < lanes.now.channels }
    ensures { OnOk result (IfSome (slice_get fabric.now.channels channel.0) (λ row. text.new.items ≡ text.old.items ++ writing.lines_text (writing.number_lines fabric.now lanes.now (channel.0, row)))) }
{
    let row = fabric.channel(channel);
    let guid = fabric.switch(row.tail).guid;
    for lane in 0..15 {
        push_number_line(text, guid, row.port, lane, lanes.number(channel, lane))?;
    }
    Ok(())
}
