//! The commands on groups: a list of groups of a fabric is read, and their tables are told, or what a packet to one of
//! them reaches. The time and memory are those of reading the files, of planting, and of following the packet's copies.
ghost use Rattle.std.specs.Prelude.{◌≡◌, ◌<◌, All, Contains, length, map, slice_get, IfOk};
ghost use Rattle.fab_model.specs.declared.rows.TerminalId.{TerminalId as Number};
ghost use Rattle.fab_model.specs.WellFormed.{IsFabric};
ghost use Rattle.fab_mcast.specs.GroupTrees.{ArePlanted, Planted};
ghost use Rattle.fab_top.specs.Answers.{IsMcastAnswer, IsSpreadAnswer, IsSpreadFrom, AfterMember, members_by_group};
ghost use Rattle.fab_top.specs.Files.{AreKnown, known_group, known_member, members_in};
ghost use Rattle.fab_top.specs.Headline.{PlantsTruly, SpreadsTruly};
ghost use Rattle.fab_top.specs.Outcomes.{Obeys, FindsRightly};
ghost use Rattle.fab_top.specs.Taking.{IsTaken, viewed};
ghost use Rattle.fab_top.specs.Words.{texts};
ghost use Rattle.fab_top.specs.declared.command.Command.TheVariants as asked;

use super::done;
use crate::fault_texts::{no_member_text, unknown_group_text};
use crate::files::{take_fabric, take_groups};
use crate::group_texts::{groups_text, spread_text};
use crate::outcome::{Outcome, Stop};
use fab_hops::Hops;
use fab_io::Shelf;
use fab_mcast::{GroupTables, Groups, plant, spread as spread_of};
use fab_model::{Fabric, Lid, TerminalId};
use std::alloc::{AllocError, Global};

/// The tables of groups.
fn planted(alloc: Global, fabric: &Fabric, groups: &Groups) -> Result<GroupTables, AllocError>
    requires known { AreKnown fabric.now groups.now }
    ensures planted { IfOk result (λ tables. ArePlanted fabric.now (members_by_group groups.now) tables) }
    ensures each { IfOk result (λ tables. All (λ (g : Planted). length g.ports ≡ length fabric.now.switches) tables) }
{
    let hops = Hops::of(alloc, fabric)?;
    plant(alloc, fabric, &hops, groups)
}

/// The tables of groups, as an outcome.
fn tables_told(alloc: Global, fabric: &Fabric, groups: &Groups) -> Result<Outcome, Stop>
    requires fabric { IsFabric fabric.now }
    requires known { AreKnown fabric.now groups.now }
    ensures { FindsRightly (IsMcastAnswer fabric.now groups.now) (PlantsTruly fabric.now groups.now) result }
{
    let tables = planted(alloc, fabric, groups)?;
    let text = groups_text(alloc, fabric, groups, &tables)?;
    Ok(done(alloc, text))
}

/// The tables of groups.
pub(crate) fn mcast<F: Shelf>(
    alloc: Global,
    words: &[String],
    shelf: &mut F,
    fabric: usize,
    groups: usize,
) -> Result<Outcome, Stop>
    requires fabric { fabric < length words.now }
    requires groups { groups < length words.now }
    ensures { Obeys (asked.Mcast fabric groups) (texts words.now) (F.told shelf.old) (F.faults shelf.old) (F.faults shelf.new) result }
{
    let fabric = take_fabric(alloc, words, shelf, fabric)?;
    let groups = take_groups(alloc, words, shelf, &fabric, groups)?;
    tables_told(alloc, &fabric, &groups)
}

/// The place in the list of the group of a number.
fn known_group(alloc: Global, groups: &Groups, number: u16) -> Result<u32, Stop>
    ensures taken { IsTaken result (known_group groups.now number) }
    ensures within { IfOk result (λ index. index < length groups.now) }
{
    for index in 0..groups.count() {
        if groups.number(index) == number {
            return Ok(index);
        }
    }
    Err(Stop::Refused(unknown_group_text(alloc, number)?))
}

/// Of terminals the one that has a LID.
fn known_member(
    alloc: Global,
    fabric: &Fabric,
    members: &[TerminalId],
    lid: Lid,
) -> Result<TerminalId, Stop>
    requires { All (λ n. n < length fabric.now.terminals) (map (λ (id : Number). id.0) members.now) }
    ensures taken { IsTaken (viewed (λ (id : Number). id.0) result) (known_member fabric.now (map (λ (id : Number). id.0) members.now) lid.0) }
    ensures member { IfOk result (λ found. Contains (map (λ (id : Number). id.0) members.now) found.0) }
{
    for member in members {
        if fabric.terminal(*member).lid == lid {
            return Ok(*member);
        }
    }
    Err(Stop::Refused(no_member_text(alloc, lid)?))
}

/// What a packet to the group at a place of the list reaches from a member, as an outcome.
fn reached_from(
    alloc: Global,
    fabric: &Fabric,
    groups: &Groups,
    index: u32,
    from: TerminalId,
) -> Result<Outcome, Stop>
    requires fabric { IsFabric fabric.now }
    requires known { AreKnown fabric.now groups.now }
    requires index { index < length groups.now }
    requires member { Contains (members_in (slice_get groups.now index)) from.0 }
    ensures { FindsRightly (IsSpreadFrom fabric.now groups.now index from.0) (SpreadsTruly fabric.now groups.now index from.0) result }
{
    let tables = planted(alloc, fabric, groups)?;
    let found = spread_of(alloc, fabric, &tables, index, from)?;
    let text = spread_text(alloc, fabric, &found)?;
    Ok(done(alloc, text))
}

/// What a packet to the group of a number reaches from the member that has a LID, as an outcome.
fn reached(
    alloc: Global,
    fabric: &Fabric,
    groups: &Groups,
    group: u16,
    lid: Lid,
) -> Result<Outcome, Stop>
    requires fabric { IsFabric fabric.now }
    requires known { AreKnown fabric.now groups.now }
    ensures { FindsRightly (IsSpreadAnswer group lid.0 fabric.now groups.now) (AfterMember group lid.0 fabric.now groups.now (SpreadsTruly fabric.now groups.now)) result }
{
    let index = known_group(alloc, groups, group)?;
    let from = known_member(alloc, fabric, groups.members(index), lid)?;
    reached_from(alloc, fabric, groups, index, from)
}

/// What a packet to a group reaches from a member.
pub(crate) fn spread<F: Shelf>(
    alloc: Global,
    words: &[String],
    shelf: &mut F,
    fabric: usize,
    groups: usize,
    group: u16,
    from: Lid,
) -> Result<Outcome, Stop>
    requires fabric { fabric < length words.now }
    requires groups { groups < length words.now }
    ensures { Obeys (asked.Spread fabric groups group from) (texts words.now) (F.told shelf.old) (F.faults shelf.old) (F.faults shelf.new) result }
{
    let fabric = take_fabric(alloc, words, shelf, fabric)?;
    let groups = take_groups(alloc, words, shelf, &fabric, groups)?;
    reached(alloc, &fabric, &groups, group, from)
}
