//! The switches, adapters and terminals of a generated fabric. Numbers go up from 0 by switch and port: a switch has
//! the LID after its number, a terminal one after those of the switches. Time and memory: the rows.
ghost use Rattle.std.specs.Prelude.{◌≡◌, ℕ, ◌+◌, ◌<◌, ◌≤◌, ◌^◌, ◌++◌, length, map, codes, decimal, false, IfOk, OnOk, IsTrue, ◌==◌};
ghost use Rattle.std.specs.List.{range_with_len, enumerate_from, list_any};
ghost use Rattle.fab_report.specs.Recipes as recipes;

use crate::recipe::{Kind, Recipe};
use fab_model::{AdapterRow, Desc, Lid, SwitchId, SwitchRow, TerminalRow};
use fab_text::push_dec;
use std::alloc::{AllocError, Global};

/// How many switches a recipe's fabric has.
fn switch_count(recipe: &Recipe) -> u32
    requires { IsTrue (recipes.fits recipe.now) }
    ensures { result ≡ recipes.switch_count recipe.now.kind recipe.now.a recipe.now.b }
{
    match recipe.kind {
        Kind::Ring | Kind::Random => recipe.a,
        Kind::Torus => recipe.a * recipe.b,
        Kind::Tree => recipe.a + recipe.b,
    }
}

/// How many ports a switch has.
fn port_count(recipe: &Recipe, s: u32) -> u8
    requires { IsTrue (recipes.fits recipe.now) }
    ensures { result ≡ recipes.port_count recipe.now.kind recipe.now.a recipe.now.b s }
{
    match recipe.kind {
        Kind::Ring => 2 + recipe.b as u8,
        Kind::Torus => 5,
        Kind::Tree if s < recipe.a => 2 * recipe.b as u8,
        Kind::Tree => recipe.a as u8,
        Kind::Random => 254,
    }
}

/// The first port of a switch on which a terminal is, and how many there are.
fn terminal_ports(recipe: &Recipe, s: u32) -> (u8, u8)
    requires { IsTrue (recipes.fits recipe.now) }
    ensures ports { range_with_len result.0 result.1 ≡ recipes.terminal_ports recipe.now.kind recipe.now.a recipe.now.b s }
    ensures low { result.0 + result.1 ≤ 255 }
{
    match recipe.kind {
        Kind::Ring => (3, recipe.b as u8),
        Kind::Torus => (5, 1),
        Kind::Tree if s < recipe.a => (recipe.b as u8 + 1, recipe.b as u8),
        Kind::Tree => (0, 0),
        Kind::Random => (1, 1),
    }
}

/// The description of a node: a word and the node's number.
fn description(alloc: Global, word: &[u8], number: u32) -> Result<Desc, AllocError>
    requires one_line { list_any (λ byte. byte == 10) word.now ≡ false }
    requires short { length word.now ≤ 10 }
    requires number { number < 10 ^ 5 }
    ensures { IfOk result (λ desc. desc ≡ word.now ++ decimal number) }
{
    let mut text = Vec::new(alloc);
    text.extend_from_slice(word)?;
    push_dec(&mut text, u64::from(number))?;
    Ok(Desc::new(&text))
}

/// The switches of a recipe's fabric.
pub(crate) fn switch_rows(alloc: Global, recipe: &Recipe) -> Result<Vec<SwitchRow>, AllocError>
    requires { IsTrue (recipes.fits recipe.now) }
    ensures { IfOk result (λ rows. rows.items ≡ map (recipes.switch_row recipe.now) (recipes.all_switches recipe.now)) }
{
    let mut rows = Vec::new(alloc);
    for s in 0..switch_count(recipe) {
        rows.push(SwitchRow {
            guid: 0x10000 + u64::from(s),
            lid: Lid(s as u16 + 1),
            ports: port_count(recipe, s),
            desc: description(alloc, b"switch ", s)?,
        })?;
    }
    Ok(rows)
}

/// So many adapters, of one port each.
pub(crate) fn adapter_rows(alloc: Global, count: u32) -> Result<Vec<AdapterRow>, AllocError>
    requires { count ≤ 4096 }
    ensures { IfOk result (λ rows. rows.items ≡ map recipes.adapter_row (range_with_len 0 count)) }
{
    let mut rows = Vec::new(alloc);
    for number in 0..count {
        rows.push(AdapterRow {
            guid: 0x20000 + u64::from(number),
            ports: 1,
            desc: description(alloc, b"node ", number)?,
        })?;
    }
    Ok(rows)
}

/// The terminals of a recipe's fabric, by switch and port.
pub(crate) fn terminal_rows(alloc: Global, recipe: &Recipe) -> Result<Vec<TerminalRow>, AllocError>
    requires { IsTrue (recipes.fits recipe.now) }
    ensures { IfOk result (λ rows. rows.items ≡ map (recipes.terminal_row recipe.now) (enumerate_from 0 (recipes.terminal_places recipe.now))) }
{
    let count = switch_count(recipe);
    let mut rows = Vec::new(alloc);
    for s in 0..count {
        let (first, ports) = terminal_ports(recipe, s);
        for port in first..first + ports {
            let number = rows.len() as u32;
            rows.push(terminal_row(count, number, SwitchId(s), port))?;
        }
    }
    Ok(rows)
}

/// The terminal of a number at a switch's port, where there are so many switches.
fn terminal_row(switches: u32, number: u32, switch: SwitchId, port: u8) -> TerminalRow
    requires { switches + number < 2 ^ 15 }
    ensures { result ≡ recipes.terminal_at switches (number, (switch.0, port)) }
{
    TerminalRow {
        lid: Lid((switches + 1 + number) as u16),
        switch,
        port,
        adapter: number,
        adapter_port: 1,
        port_guid: 0x20000 + u64::from(number),
    }
}
