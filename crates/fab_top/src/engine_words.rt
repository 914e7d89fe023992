//! The words of engines: `route ENGINE FABRIC`, behind which roots or a lane count may stand, and `demo KIND A B SEED
//! ENGINE N`. An engine is found by its name and by what it is asked for, in time that the length of the words gives.
//! Memory is taken for the roots alone.
ghost use Rattle.std.specs.Prelude.{◌≡◌, IfOk};
ghost use Rattle.fab_text.specs.Fields.{hex};
ghost use Rattle.fab_top.specs.Words.{texts, bare, rooted, lanes_asked, engine_in, lanes_in, roots_in, asked_behind, asked_by, route_words, demo_words};

use crate::command::{Command, Engine};
use crate::guid_list::GuidList;
use crate::words::{is_file, number_in, recipe_in};
use fab_text::read_hex;
use std::alloc::{AllocError, Global};

/// What an engine is asked for.
#[derive(Drop)]
pub(crate) enum Asked {
    Nothing,
    /// The roots with these GUIDs.
    Roots(GuidList),
    /// So many lanes, 1 to 15.
    Lanes(u8),
}

/// An engine that takes neither roots nor a lane count.
fn bare(engine: Engine, asked: Asked) -> Option<Engine>
    ensures { result ≡ bare engine asked }
{
    match asked {
        Asked::Nothing => Some(engine),
        Asked::Roots(_) | Asked::Lanes(_) => None,
    }
}

/// The engine that takes roots.
fn rooted(alloc: Global, asked: Asked) -> Option<Engine>
    ensures { result ≡ rooted asked }
{
    match asked {
        Asked::Nothing => Some(Engine::Updn(GuidList::new(Vec::new(alloc)))),
        Asked::Roots(roots) => Some(Engine::Updn(roots)),
        Asked::Lanes(_) => None,
    }
}

/// The lane count that is asked for.
fn lanes_asked(asked: Asked) -> Option<u8>
    ensures { result ≡ lanes_asked asked }
{
    match asked {
        Asked::Lanes(count) => Some(count),
        Asked::Nothing | Asked::Roots(_) => None,
    }
}

/// The engine of this name, if it takes what is asked for.
fn engine_in(alloc: Global, name: &str, asked: Asked) -> Option<Engine>
    ensures { result ≡ engine_in name.now asked }
{
    match name {
        "minhop" => bare(Engine::MinHop, asked),
        "dor" => bare(Engine::Dor, asked),
        "sssp" => bare(Engine::Sssp, asked),
        "updn" => rooted(alloc, asked),
        "lash" => Some(Engine::Lash(lanes_asked(asked)?)),
        "dfsssp" => Some(Engine::Dfsssp(lanes_asked(asked)?)),
        "nue" => Some(Engine::Nue(lanes_asked(asked)?)),
        _ => None,
    }
}

/// A lane count, 1 to 15.
pub(crate) fn lanes_in(word: &str) -> Option<u8>
    ensures { result ≡ lanes_in word.now }
{
    let count = number_in(15, word)? as u8;
    (count != 0).then_some(count)
}

/// A GUID: `0x` and 1 to 16 hexadecimal digits.
#[tactic(auto, using(fab_text::proofs::WordNumbers::hex_is))]
fn guid_in(word: &str) -> Option<u64>
    ensures { result ≡ hex 16 word.now }
{
    let digits = word.as_bytes();
    if !digits.starts_with(b"0x") {
        return None;
    }
    match read_hex(digits, 2) {
        Some((guid, end)) if end == digits.len() => Some(guid),
        _ => None,
    }
}

/// The roots that words name, each behind its flag. The error is want of memory.
fn roots_in(alloc: Global, words: &[String]) -> Result<Option<GuidList>, AllocError>
    ensures { IfOk result (λ roots. roots ≡ roots_in (texts words.now)) }
{
    let mut guids = Vec::new(alloc);
    let mut rest = words;
    while let [flag, guid, after @ ..] = rest {
        if flag.as_str() != "--root" {
            return Ok(None);
        }
        let Some(guid) = guid_in(guid.as_str()) else {
            return Ok(None);
        };
        guids.push(guid)?;
        rest = after;
    }
    if !rest.is_empty() {
        return Ok(None);
    }
    Ok(Some(GuidList::new(guids)))
}

/// What the words behind a fabric ask for. The error is want of memory.
fn asked_behind(alloc: Global, others: &[String]) -> Result<Option<Asked>, AllocError>
    ensures { IfOk result (λ asked. asked ≡ asked_behind (texts others.now)) }
{
    match others {
        [] => Ok(Some(Asked::Nothing)),
        [flag, count] if flag.as_str() == "--lanes" => {
            let Some(count) = lanes_in(count.as_str()) else {
                return Ok(None);
            };
            Ok(Some(Asked::Lanes(count)))
        }
        _ => {
            let Some(roots) = roots_in(alloc, others)? else {
                return Ok(None);
            };
            Ok(Some(Asked::Roots(roots)))
        }
    }
}

/// What the last word of a demonstration asks for.
fn asked_by(count: &str) -> Option<Asked>
    ensures { result ≡ asked_by count.now }
{
    if count == "0" {
        return Some(Asked::Nothing);
    }
    let count = lanes_in(count)?;
    Some(Asked::Lanes(count))
}

/// The command of the words behind `route`. The error is want of memory.
pub(crate) fn route_words(alloc: Global, others: &[String]) -> Result<Option<Command>, AllocError>
    ensures { IfOk result (λ command. command ≡ route_words (texts others.now)) }
{
    match others {
        [name, fabric, others @ ..] if is_file(fabric.as_str()) => {
            let Some(asked) = asked_behind(alloc, others)? else {
                return Ok(None);
            };
            let Some(engine) = engine_in(alloc, name.as_str(), asked) else {
                return Ok(None);
            };
            Ok(Some(Command::Route { fabric: 2, engine }))
        }
        _ => Ok(None),
    }
}

/// The command of the words behind `demo`, in which no root is named.
pub(crate) fn demo_words(alloc: Global, others: &[String]) -> Option<Command>
    ensures { result ≡ demo_words (texts others.now) }
{
    match others {
        [kind, a, b, seed, name, count] => {
            let recipe = recipe_in(kind.as_str(), a.as_str(), b.as_str(), seed.as_str())?;
            let asked = asked_by(count.as_str())?;
            let engine = engine_in(alloc, name.as_str(), asked)?;
            Some(Command::Demo { recipe, engine })
        }
        _ => None,
    }
}
