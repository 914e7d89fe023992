//! The list of groups, read.
//!
//! Problem: a text of bytes is to become the groups that it names, each with the terminals of its members, or to be
//! refused by its first faulty line. Definition: `groups_in` in `specs/GroupList.antt`. Each line is empty, begins with
//! `#`, or has a group's number and the LIDs of its members. Cost: each line is read once; the LIDs of a line of n
//! words are sorted, in O(n log n) time. Memory: 4 bytes for each member that is named. The form is this project's own.
ghost use Rattle.std.specs.Prelude.{◌≡◌, ◌==◌, ℕ, List, nat_eq, ◌<◌, ◌≤◌, [], ◌∷◌, length, map, All, MatchOption, IfOk, IfSome, option_map, true, false};
ghost use Rattle.std.specs.List.{list_any};
ghost use Rattle.std.specs.HashSet.{contains};
ghost use Rattle.fab_model.specs.declared.rows.TerminalId.{TerminalId as Number};
ghost use Rattle.fab_model.specs.WellFormed.{IsFabric};
ghost use Rattle.fab_text.specs.Fields.{is_passed_over, words_of, hex, dec_up_to, all_read};
ghost use Rattle.fab_text.specs.Readings.{Gives, GivesSeen};
ghost use Rattle.fab_mcast.specs.GroupList.{groups_in, has_bare_ends, group_number, lid_of, named_in, has_stranger, terminals_named, group_of, wants_memory, Group as Row};
ghost use Rattle.fab_mcast.specs.Reading.{seen_named, seen_group, number_of_lid};

use crate::fault::GroupFault;
use crate::groups::{Group, Groups};
use fab_model::{Fabric, Lid, TerminalId};
use fab_text::{is_blank, next_line, read_dec, read_hex, word};
use std::alloc::{AllocError, Global};
use std::collections::HashSet;

/// A group as a line names it: its number, and the LIDs of its members in the order of the line.
#[derive(Drop)]
struct Named {
    number: u16,
    lids: Vec<u16>,
}

fn is_passed_over(line: &[u8]) -> bool
    ensures { result ≡ is_passed_over line.now }
{
    line.is_empty() || line.starts_with(b"#")
}

/// Whether no blank stands at either end of the line.
fn has_bare_ends(line: &[u8]) -> bool
    requires { 0 < length line.now }
    ensures { result ≡ has_bare_ends line.now }
{
    !is_blank(line[0]) && !is_blank(line[line.len() - 1])
}

/// The number that a word of `0x` and 1 to 4 hexadecimal digits is.
fn hex_in(word: &[u8]) -> Option<u16>
    ensures { result ≡ hex 4 word.now }
{
    if word.len() > 6 || !word.starts_with(b"0x") {
        return None;
    }
    match read_hex(word, 2) {
        Some((number, end)) if end == word.len() => Some(number as u16),
        _ => None,
    }
}

/// The number that a word of decimal digits is, where it is at most 65,535.
#[tactic(auto, using(fab_text::proofs::WordNumbers::dec_is))]
fn dec_in(word: &[u8]) -> Option<u16>
    ensures { result ≡ dec_up_to 65535 word.now }
{
    match read_dec(word, 0) {
        Some((number, end)) if end == word.len() && number <= u64::from(u16::MAX) => {
            Some(number as u16)
        }
        _ => None,
    }
}

/// The LID that a word is.
fn lid_in(word: &[u8]) -> Option<u16>
    ensures { result ≡ lid_of word.now }
{
    hex_in(word).or(dec_in(word))
}

/// The number of a group that a word is.
fn group_number(word: &[u8]) -> Option<u16>
    ensures { result ≡ group_number word.now }
{
    if word.len() != 6 {
        return None;
    }
    let number = hex_in(word)?;
    if number >= 0xc000 && number <= 0xfffe {
        Some(number)
    } else {
        None
    }
}

/// The next word, and the bytes after it.
#[tactic(auto, using(std::proofs::lemmas::Grind::common_steps, fab_text::proofs::Words::next_word_is, fab_text::proofs::Words::no_word_is))]
fn next_word(bytes: &[u8]) -> Option<(&[u8], &[u8])>
    ensures { MatchOption result (words_of bytes.now ≡ []) (λ read. words_of bytes.now ≡ read.0.now ∷ words_of read.1.now) }
{
    let place = word(bytes, 0)?;
    Some((&bytes[place.start..place.end], &bytes[place.end..]))
}

/// The LIDs that the words are, where each is one. The error is want of memory.
fn lids_in(alloc: Global, words: &[u8]) -> Result<Option<Vec<u16>>, AllocError>
    ensures { IfOk result (λ lids. option_map (λ lids. lids.items) lids ≡ all_read lid_of (words_of words.now)) }
{
    let mut lids = Vec::new(alloc);
    let mut rest = words;
    while let Some((word, behind)) = next_word(rest) {
        let Some(lid) = lid_in(word) else {
            return Ok(None);
        };
        lids.push(lid)?;
        rest = behind;
    }
    Ok(Some(lids))
}

/// The group that a line names. The error is want of memory.
fn named_in(alloc: Global, line: &[u8]) -> Result<Option<Named>, AllocError>
    requires { 0 < length line.now }
    ensures { IfOk result (λ named. option_map seen_named named ≡ named_in line.now) }
{
    if !has_bare_ends(line) {
        return Ok(None);
    }
    let Some((first, others)) = next_word(line) else {
        return Ok(None);
    };
    let Some(number) = group_number(first) else {
        return Ok(None);
    };
    match lids_in(alloc, others)? {
        Some(lids) if !lids.is_empty() => Ok(Some(Named { number, lids })),
        _ => Ok(None),
    }
}

/// The terminal that has a LID.
fn terminal_with(fabric: &Fabric, lid: Lid) -> Option<TerminalId>
    requires { IsFabric fabric.now }
    ensures { option_map (λ (id : Number). id.0) result ≡ number_of_lid fabric.now lid.0 }
{
    let place = fabric.place_of(lid)?;
    fabric.terminal_at(place.switch, place.port)
}

/// The terminals that have the LIDs, ascending; None where one of them isn't a terminal's. The error is want of memory.
fn members_with(
    alloc: Global,
    fabric: &Fabric,
    lids: Vec<u16>,
) -> Result<Option<Vec<TerminalId>>, AllocError>
    ensures fabric { IfOk result (λ _. IsFabric fabric.now) }
    ensures members { IfOk result (λ members. MatchOption members (has_stranger fabric.now lids.items ≡ true)
        (λ found. (has_stranger fabric.now lids.items ≡ false) × (map (λ (id : Number). id.0) found.items ≡ terminals_named fabric.now lids.items))) }
{
    let mut ascending = lids;
    ascending.sort_unstable();
    ascending.dedup();
    let most = ascending.len().min(fabric.terminals() as usize);
    let mut members = Vec::with_capacity(alloc, most)?;
    for lid in &ascending {
        let Some(member) = terminal_with(fabric, Lid(*lid)) else {
            return Ok(None);
        };
        members.push(member)?;
    }
    Ok(Some(members))
}

/// The group of a line, behind the groups of earlier lines, or the line's fault.
fn group_of(
    alloc: Global,
    fabric: &Fabric,
    numbers: &HashSet<u16>,
    line: u32,
    bytes: &[u8],
) -> Result<Group, GroupFault>
    requires { 0 < length bytes.now }
    ensures fabric { IfOk result (λ _. IsFabric fabric.now) }
    ensures group { (earlier : List Row) → ((n : ℕ) → contains nat_eq numbers.now n ≡ list_any (λ (g : Row). g.number == n) earlier) →
        GivesSeen wants_memory seen_group result (group_of fabric.now earlier line (named_in bytes.now)) }
{
    let Some(named) = named_in(alloc, bytes)? else {
        return Err(GroupFault::BadLine { line });
    };
    if numbers.contains(&named.number) {
        return Err(GroupFault::TwiceGroup { line });
    }
    let Some(members) = members_with(alloc, fabric, named.lids)? else {
        return Err(GroupFault::UnknownMember { line });
    };
    Ok(Group {
        number: named.number,
        members,
    })
}

/// Reads a list of groups: those that its lines name, in the order of the lines, with members of this fabric.
///
/// A line is empty, begins with `#`, or has a group's number and the LIDs of one or more members, parted by blanks; no
/// blank stands at its ends. The number is `0x` and four hexadecimal digits of either case, from 0xc000 to 0xfffe. A LID
/// is `0x` and 1 to 4 hexadecimal digits, or a decimal number of at most 65,535, in which leading zeros may stand. A
/// member that a line names twice counts once. Lines end as [`fab_text::next_line`] says.
///
/// The first faulty line decides, and of its faults the first of these: `BadLine` where the line has another form,
/// `TwiceGroup` where an earlier line has its number, `UnknownMember` where one of its LIDs isn't a terminal's. `Memory`
/// may come in place of any answer.
///
/// Time: the bytes of the text, and O(n log n) for the n LIDs of a line. Memory: 4 bytes for each member.
pub fn read_groups(alloc: Global, fabric: &Fabric, text: &[u8]) -> Result<Groups, GroupFault>
    requires { length text.now ≤ 1048576 }
    ensures groups { Gives wants_memory result (groups_in fabric.now text.now) }
    ensures known { IfOk result (λ groups. All (λ (g : Row). All (λ n. n < length fabric.now.terminals) g.members) groups) }
{
    let mut list = Vec::new(alloc);
    let mut numbers = HashSet::new(alloc);
    let mut from = 0;
    let mut line = 0;
    while let Some(found) = next_line(text, from) {
        line += 1;
        let bytes = &text[found.start..found.end];
        if !is_passed_over(bytes) {
            let group = group_of(alloc, fabric, &numbers, line, bytes)?;
            numbers
                .insert(group.number)
                .map_err(|refused| GroupFault::Memory(refused.into()))?;
            list.push(group)
                .map_err(|refused| GroupFault::Memory(refused.into()))?;
        }
        from = found.next;
    }
    Ok(Groups { list })
}
