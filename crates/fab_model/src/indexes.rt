//! Tables that find the rows of a fabric: by port, by switch and by LID. Each is filled in one pass over its rows,
//! but for the first channels of switches, which are found by halving. Memory: 528 cells a switch, 65,536 for the
//! LIDs.
ghost use Rattle.std.specs.Prelude.{◌≡◌, ◌≢◌, ◌+◌, ◌*◌, ◌<◌, ◌≤◌, ◌^◌, [], All, AllPairs, length, filter, map, option_map, IfOk};
ghost use Rattle.std.specs.List.{range_with_len};
ghost use Rattle.fab_model.specs.Topology.{channel_id, terminal_id, channel_at, terminal_at, first_channel};
ghost use Rattle.fab_model.specs.WellFormed.{GoesBefore, UseOtherPorts};
ghost use Rattle.fab_model.specs.Indexed.{AreRows, AreIndexes, only, IsByPort, AreFirstChannels, AreSources, AreByLid, has_place};

use crate::{ChannelId, ChannelRow, Lid, Place, SwitchId, SwitchRow, TerminalId, TerminalRow};
use std::alloc::{AllocError, Global};

/// How many cells a switch has for what is at its ports: a few more than the 256 numbers that a port may have, so
/// that the cells of many switches don't share a few lines of a processor's cache.
pub(crate) const PORT_CELLS: usize = 264;

/// How many numbers a LID may have.
const LID_NUMBERS: usize = 65_536;

/// What finds the rows of a fabric without going through them.
#[derive(Drop)]
pub(crate) struct Indexes {
    /// The channel that leaves by a port, at `264 * switch + port`.
    pub(crate) channels_by_port: Vec<Option<ChannelId>>,
    /// The terminal at a port, at `264 * switch + port`.
    pub(crate) terminals_by_port: Vec<Option<TerminalId>>,
    /// By switch, the first channel that leaves it, and behind them the number of channels.
    pub(crate) first_channels: Vec<u32>,
    /// By switch, whether it has a terminal.
    pub(crate) sources_by_switch: Vec<bool>,
    /// By LID, its place.
    pub(crate) places_by_lid: Vec<Option<Place>>,
    /// The LIDs in use, ascending.
    pub(crate) lids_in_use: Vec<Lid>,
}

impl Indexes {
    /// The indexes of a fabric's rows.
    pub(crate) fn of_rows(
        alloc: Global,
        switches: &[SwitchRow],
        channels: &[ChannelRow],
        terminals: &[TerminalRow],
    ) -> Result<Indexes, AllocError>
        requires { AreRows switches.now channels.now terminals.now }
        ensures { IfOk result (AreIndexes switches.now channels.now terminals.now) }
    {
        let count = switches.len();
        let places = places_by_lid(alloc, switches, terminals)?;
        let lids = placed_lids(alloc, &places)?;
        Ok(Indexes {
            channels_by_port: channels_by_port(alloc, count, channels)?,
            terminals_by_port: terminals_by_port(alloc, count, terminals)?,
            first_channels: first_channels(alloc, count, channels)?,
            sources_by_switch: sources_by_switch(alloc, count, terminals)?,
            places_by_lid: places,
            lids_in_use: lids,
        })
    }
}

/// The channels by switch and out port.
fn channels_by_port(
    alloc: Global,
    switches: usize,
    rows: &[ChannelRow],
) -> Result<Vec<Option<ChannelId>>, AllocError>
    requires few { switches ≤ 2048 }
    requires small { length rows.now < 2 ^ 32 }
    requires tails { All (λ row. row.tail.0 < switches) rows.now }
    requires rise { AllPairs GoesBefore rows.now }
    ensures { IfOk result
        (λ cells. IsByPort (λ switch port. option_map channel_id (channel_at (only [] rows.now []) switch port)) switches cells.items) }
{
    let mut cells = vec![in alloc; None; PORT_CELLS * switches]?;
    for (number, row) in rows.iter().enumerate() {
        let cell = PORT_CELLS * row.tail.0 as usize + row.port as usize;
        cells[cell] = Some(ChannelId(number as u32));
    }
    Ok(cells)
}

/// The terminals by switch and port.
fn terminals_by_port(
    alloc: Global,
    switches: usize,
    rows: &[TerminalRow],
) -> Result<Vec<Option<TerminalId>>, AllocError>
    requires few { switches ≤ 2048 }
    requires small { length rows.now < 2 ^ 32 }
    requires switches { All (λ row. row.switch.0 < switches) rows.now }
    requires apart { AllPairs UseOtherPorts rows.now }
    ensures { IfOk result
        (λ cells. IsByPort (λ switch port. option_map terminal_id (terminal_at (only [] [] rows.now) switch port)) switches cells.items) }
{
    let mut cells = vec![in alloc; None; PORT_CELLS * switches]?;
    for (number, row) in rows.iter().enumerate() {
        let cell = PORT_CELLS * row.switch.0 as usize + row.port as usize;
        cells[cell] = Some(TerminalId(number as u32));
    }
    Ok(cells)
}

/// By switch, the first channel that leaves it, and behind them the number of channels.
fn first_channels(
    alloc: Global,
    switches: usize,
    rows: &[ChannelRow],
) -> Result<Vec<u32>, AllocError>
    requires few { switches ≤ 2048 }
    requires small { length rows.now < 2 ^ 32 }
    requires rise { AllPairs GoesBefore rows.now }
    ensures { IfOk result (λ numbers. AreFirstChannels rows.now switches numbers.items) }
{
    let mut numbers = Vec::with_capacity(alloc, switches + 1)?;
    for switch in 0..=switches {
        let first = leaving_below(rows, switch);
        numbers.push(first as u32)?;
    }
    Ok(numbers)
}

/// How many channels leave switches of smaller numbers.
fn leaving_below(rows: &[ChannelRow], switch: usize) -> usize
    requires { AllPairs GoesBefore rows.now }
    ensures count { result ≡ first_channel (only [] rows.now []) switch }
    ensures within { result ≤ length rows.now }
{
    rows.partition_point(|row| (row.tail.0 as usize) < switch)
}

/// By switch, whether it has a terminal.
fn sources_by_switch(
    alloc: Global,
    switches: usize,
    rows: &[TerminalRow],
) -> Result<Vec<bool>, AllocError>
    requires { All (λ row. row.switch.0 < switches) rows.now }
    ensures { IfOk result (λ flags. AreSources rows.now switches flags.items) }
{
    let mut flags = vec![in alloc; false; switches]?;
    for row in rows {
        flags[row.switch.0 as usize] = true;
    }
    Ok(flags)
}

/// By LID, its place.
fn places_by_lid(
    alloc: Global,
    switches: &[SwitchRow],
    terminals: &[TerminalRow],
) -> Result<Vec<Option<Place>>, AllocError>
    requires few { length switches.now ≤ 2048 }
    requires switches { AllPairs (λ first second. first.lid.0 ≢ second.lid.0) switches.now }
    requires terminals { AllPairs (λ first second. first.lid.0 < second.lid.0) terminals.now }
    ensures { IfOk result
        (λ places. AreByLid (only switches.now [] terminals.now) places.items) }
{
    let mut places = vec![in alloc; None; LID_NUMBERS]?;
    for row in terminals {
        places[row.lid.0 as usize] = Some(Place {
            switch: row.switch,
            port: row.port,
        });
    }
    for (number, row) in switches.iter().enumerate() {
        places[row.lid.0 as usize] = Some(Place {
            switch: SwitchId(number as u32),
            port: 0,
        });
    }
    Ok(places)
}

/// The LIDs that have a place, ascending.
fn placed_lids(alloc: Global, places: &[Option<Place>]) -> Result<Vec<Lid>, AllocError>
    requires { length places.now ≤ 65536 }
    ensures { IfOk result
        (λ lids. map (λ lid. lid.0) lids.items ≡ filter (has_place places.now) (range_with_len 0 (length places.now))) }
{
    let mut lids = Vec::new(alloc);
    for (lid, place) in places.iter().enumerate() {
        if place.is_some() {
            lids.push(Lid(lid as u16))?;
        }
    }
    Ok(lids)
}
