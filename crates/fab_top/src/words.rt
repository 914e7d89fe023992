//! The grammar of the words, without the program's own name. A command is found by its first word, in time that the
//! length of the words gives.
ghost use Rattle.std.specs.Prelude.{◌≡◌, ◌≤◌, IfSome, IfOk, option_map};
ghost use Rattle.std.specs.Bool.{then_some};
ghost use Rattle.fab_top.specs.Words.{texts, command_of, is_file, are_two_files, two_files, has_leading_zero, number_in, named, kinds, lid_in, group_in, lanes_in, flagged_lanes, are_three_files, repair_words, transit_words, show_from_to, show_words, recipe_in, gen_words, spread_words, failings, sweep_words, part_names, export_words};
ghost use Rattle.fab_top.specs.ReadWords.{or_unknown, wants_memory};
ghost use Rattle.fab_text.specs.Fields.{hex};
ghost use Rattle.fab_text.specs.Readings.{Gives};
ghost use Rattle.fab_model.specs.Topology.{lid_id};
ghost use Rattle.fab_top.specs.declared.command.Command.TheVariants as asked;

use crate::command::Command;
use crate::engine_words::{demo_words, lanes_in, route_words};
use fab_export::Part;
use fab_model::Lid;
use fab_report::{Kind, Recipe};
use fab_sweep::Failing;
use fab_text::{read_dec, read_hex};
use std::alloc::{AllocError, Global};
use thiserror::Error;

/// Why words are no command.
#[derive(Debug, Drop, Error)]
pub enum WordsFault {
    /// The words are not in the grammar.
    #[error("unknown words")]
    Words,
    /// Memory for the words of a command was refused.
    #[error("out of memory")]
    Memory(AllocError),
}

/// A file's word is not empty and does not begin with two dashes.
pub(crate) fn is_file(word: &str) -> bool
    ensures { result ≡ is_file word.now }
{
    !word.is_empty() && !word.starts_with("--")
}

fn has_leading_zero(word: &str) -> bool
    ensures { result ≡ has_leading_zero word.now }
{
    word.len() > 1 && word.starts_with("0")
}

/// A decimal number of at most a value, without leading zeros.
#[tactic(auto, using(crate::proofs::LowNumbers::number_is))]
pub(crate) fn number_in(greatest: u64, word: &str) -> Option<u64>
    ensures number { result ≡ number_in greatest word.now }
    ensures below { IfSome result (λ number. number ≤ greatest) }
{
    if has_leading_zero(word) {
        return None;
    }
    let digits = word.as_bytes();
    match read_dec(digits, 0) {
        Some((number, end)) if end == digits.len() && number <= greatest => Some(number),
        _ => None,
    }
}

/// `0x` and 1 to 4 hexadecimal digits.
#[tactic(auto, using(crate::proofs::LowNumbers::short_hex_is))]
fn hex_in(word: &str) -> Option<u16>
    ensures { result ≡ hex 4 word.now }
{
    let digits = word.as_bytes();
    if !digits.starts_with(b"0x") || digits.len() > 6 {
        return None;
    }
    match read_hex(digits, 2) {
        Some((number, end)) if end == digits.len() => Some(number as u16),
        _ => None,
    }
}

/// A LID, which need not be in use.
fn lid_in(word: &str) -> Option<Lid>
    ensures { result ≡ option_map lid_id (lid_in word.now) }
{
    if let Some(lid) = hex_in(word) {
        return Some(Lid(lid));
    }
    let lid = number_in(65_535, word)? as u16;
    Some(Lid(lid))
}

/// A group's number, which need not be in the list.
fn group_in(word: &str) -> Option<u16>
    ensures { result ≡ group_in word.now }
{
    if word.len() != 6 {
        return None;
    }
    hex_in(word)
}

/// Whether the words are two, each of which names a file.
fn are_two_files(others: &[String]) -> bool
    ensures { result ≡ are_two_files (texts others.now) }
{
    match others {
        [first, second] => is_file(first.as_str()) && is_file(second.as_str()),
        _ => false,
    }
}

/// A command on the files of two words, and no more words.
fn on_two_files(others: &[String], command: Command) -> Option<Command>
    ensures { result ≡ then_some (are_two_files (texts others.now)) command }
{
    are_two_files(others).then_some(command)
}

fn cut_words(others: &[String]) -> Option<Command>
    ensures { result ≡ two_files asked.Cut (texts others.now) }
{
    on_two_files(
        others,
        Command::Cut {
            fabric: 1,
            failed: 2,
        },
    )
}

fn mcast_words(others: &[String]) -> Option<Command>
    ensures { result ≡ two_files asked.Mcast (texts others.now) }
{
    on_two_files(
        others,
        Command::Mcast {
            fabric: 1,
            groups: 2,
        },
    )
}

/// A lane count behind its flag.
fn flagged_lanes(flag: &str, count: &str) -> Option<u8>
    ensures { result ≡ flagged_lanes flag.now count.now }
{
    if flag != "--lanes" {
        return None;
    }
    lanes_in(count)
}

/// Whether each of three words names a file.
fn are_three_files(first: &str, second: &str, third: &str) -> bool
    ensures { result ≡ are_three_files first.now second.now third.now }
{
    is_file(first) && is_file(second) && is_file(third)
}

fn repair_words(others: &[String]) -> Option<Command>
    ensures { result ≡ repair_words (texts others.now) }
{
    match others {
        [fabric, plan, failed, flag, count] => {
            let lanes = flagged_lanes(flag.as_str(), count.as_str())?;
            are_three_files(fabric.as_str(), plan.as_str(), failed.as_str()).then_some(
                Command::Repair {
                    fabric: 1,
                    plan: 2,
                    failed: 3,
                    lanes,
                },
            )
        }
        _ => None,
    }
}

#[tactic(auto, using(crate::proofs::Wording::show_to_missing, crate::proofs::Wording::show_both))]
fn show_from_to(from: &str, to: &str) -> Option<Command>
    ensures { result ≡ show_from_to (lid_in from.now) (lid_in to.now) }
{
    let from = lid_in(from)?;
    let to = lid_in(to)?;
    Some(Command::Show {
        fabric: 1,
        plan: 2,
        from,
        to,
    })
}

fn show_words(others: &[String]) -> Option<Command>
    ensures { result ≡ show_words (texts others.now) }
{
    match others {
        [fabric, plan, from, to] if is_file(fabric.as_str()) && is_file(plan.as_str()) => {
            show_from_to(from.as_str(), to.as_str())
        }
        _ => None,
    }
}

fn kind_in(word: &str) -> Option<Kind>
    ensures { result ≡ named kinds word.now }
{
    match word {
        "ring" => Some(Kind::Ring),
        "torus" => Some(Kind::Torus),
        "tree" => Some(Kind::Tree),
        "random" => Some(Kind::Random),
        _ => None,
    }
}

/// A recipe that fits.
pub(crate) fn recipe_in(kind: &str, a: &str, b: &str, seed: &str) -> Option<Recipe>
    ensures { result ≡ recipe_in kind.now a.now b.now seed.now }
{
    let kind = kind_in(kind)?;
    let a = number_in(4_294_967_295, a)? as u32;
    let b = number_in(4_294_967_295, b)? as u32;
    let seed = number_in(18_446_744_073_709_551_615, seed)?;
    let recipe = Recipe { kind, a, b, seed };
    recipe.fits().then_some(recipe)
}

fn gen_words(others: &[String]) -> Option<Command>
    ensures { result ≡ gen_words (texts others.now) }
{
    match others {
        [kind, a, b, seed] => {
            let recipe = recipe_in(kind.as_str(), a.as_str(), b.as_str(), seed.as_str())?;
            Some(Command::Gen { recipe })
        }
        _ => None,
    }
}

fn transit_words(others: &[String]) -> Option<Command>
    ensures { result ≡ transit_words (texts others.now) }
{
    match others {
        [fabric, old, new] => are_three_files(
            fabric.as_str(),
            old.as_str(),
            new.as_str(),
        ).then_some(Command::Transit {
            fabric: 1,
            old: 2,
            new: 3,
        }),
        _ => None,
    }
}

fn spread_words(others: &[String]) -> Option<Command>
    ensures { result ≡ spread_words (texts others.now) }
{
    match others {
        [fabric, groups, group, from] => {
            let group = group_in(group.as_str())?;
            let from = lid_in(from.as_str())?;
            (is_file(fabric.as_str()) && is_file(groups.as_str())).then_some(Command::Spread {
                fabric: 1,
                groups: 2,
                group,
                from,
            })
        }
        _ => None,
    }
}

fn failing_in(word: &str) -> Option<Failing>
    ensures { result ≡ named failings word.now }
{
    match word {
        "cables" => Some(Failing::Cables),
        "switches" => Some(Failing::Switches),
        _ => None,
    }
}

fn sweep_words(others: &[String]) -> Option<Command>
    ensures { result ≡ sweep_words (texts others.now) }
{
    match others {
        [what, fabric, plan, flag, count] => {
            let what = failing_in(what.as_str())?;
            let lanes = flagged_lanes(flag.as_str(), count.as_str())?;
            (is_file(fabric.as_str()) && is_file(plan.as_str())).then_some(Command::Sweep {
                what,
                fabric: 2,
                plan: 3,
                lanes,
            })
        }
        _ => None,
    }
}

fn part_in(word: &str) -> Option<Part>
    ensures { result ≡ named part_names word.now }
{
    match word {
        "tables" => Some(Part::Tables),
        "levels" => Some(Part::Levels),
        "config" => Some(Part::Config),
        _ => None,
    }
}

fn export_words(others: &[String]) -> Option<Command>
    ensures { result ≡ export_words (texts others.now) }
{
    match others {
        [part, fabric, plan] => {
            let part = part_in(part.as_str())?;
            (is_file(fabric.as_str()) && is_file(plan.as_str())).then_some(Command::Export {
                part,
                fabric: 2,
                plan: 3,
            })
        }
        _ => None,
    }
}

/// The command that the words spell, if they are in the grammar. The error is want of memory.
fn command_of(alloc: Global, words: &[String]) -> Result<Option<Command>, AllocError>
    ensures { IfOk result (λ command. command ≡ command_of (texts words.now)) }
{
    let [name, others @ ..] = words else {
        return Ok(None);
    };
    match name.as_str() {
        "check" => Ok(on_two_files(others, Command::Check { fabric: 1, plan: 2 })),
        "route" => route_words(alloc, others),
        "certify" => Ok(on_two_files(others, Command::Certify { fabric: 1, plan: 2 })),
        "convert" => Ok(on_two_files(others, Command::Convert { fabric: 1, plan: 2 })),
        "repair" => Ok(repair_words(others)),
        "cut" => Ok(cut_words(others)),
        "show" => Ok(show_words(others)),
        "load" => Ok(on_two_files(others, Command::Load { fabric: 1, plan: 2 })),
        "gen" => Ok(gen_words(others)),
        "demo" => Ok(demo_words(alloc, others)),
        "transit" => Ok(transit_words(others)),
        "drain" => Ok(on_two_files(others, Command::Drain { fabric: 1, plan: 2 })),
        "mcast" => Ok(mcast_words(others)),
        "spread" => Ok(spread_words(others)),
        "sweep" => Ok(sweep_words(others)),
        "export" => Ok(export_words(others)),
        "replies" => Ok(on_two_files(others, Command::Replies { fabric: 1, plan: 2 })),
        _ => Ok(None),
    }
}

/// The command that the words ask for, the program's own name left out. They are refused exactly where they
/// are not in the grammar.
pub fn read_words(alloc: Global, words: &[String]) -> Result<Command, WordsFault>
    ensures { Gives wants_memory result (or_unknown (command_of (texts words.now))) }
{
    match command_of(alloc, words) {
        Ok(Some(command)) => Ok(command),
        Ok(None) => Err(WordsFault::Words),
        Err(refused) => Err(WordsFault::Memory(refused)),
    }
}
