//! The levels of a plan, written as a policy: groups of ports, levels, and rules.
//!
//! Problem: each pair of ports that the plan knows gets its level, and every other pair one that is dropped.
//! Definition: `policy_of` in specs/Policies.antt and its text in specs/LevelsText.antt. Time: three steps for each source
//! and LID, and the text, some 30 bytes for each class and LID. Memory: the classes, and the text of one group at a
//! time.
ghost use Rattle.std.specs.Prelude.{◌≡◌, ◌<◌, ◌++◌, ◌∷◌, [], length, map, filter, flat_map, codes, slice_index, OnOk, if◌then◌else◌};
ghost use Rattle.fab_model.specs.Topology.{lids_of};
ghost use Rattle.fab_tables.specs.Fit.{LanesFit};
ghost use Rattle.fab_dump.specs.Writing as writing;
ghost use Rattle.fab_export.specs.ClassNumbers.{AreClasses};
ghost use Rattle.fab_export.specs.LevelsInUse.{all_levels};
ghost use Rattle.fab_export.specs.LevelsText.{group_lines, level_lines, rule_lines, enclosed, levels_text};
ghost use Rattle.fab_export.specs.Policies.{class_groups, class_rules, level_rule, named_level, named_levels, numbered_classes, default_name};
ghost use Rattle.fab_export.specs.SourceLevels.{row_has, row_group, is_set};

use crate::classes::Classes;
use crate::port_groups::{push_class_group, push_level_group};
use crate::reached::Reached;
use crate::source_levels::{has_level, levels_of_source};
use crate::used_levels::{spare_level_of, used_levels};
use fab_dump::{WriteFault, put};
use fab_io::Sink;
use fab_model::Fabric;
use fab_tables::Lanes;
use fab_text::{push, push_dec};
use std::alloc::{AllocError, Global};

/// Puts the group of the LIDs at which a class has a level, if it has the level; its levels stand in the row.
fn put_level_group<S: Sink>(
    sink: &mut S,
    piece: &mut Vec<u8>,
    fabric: &Fabric,
    class: usize,
    row: &[Option<u8>],
    level: u8,
) -> Result<(), WriteFault>
    requires { length row.now ≡ length (lids_of fabric.now) }
    ensures { writing.PutsText (writing.lines_text (if row_has row.now level then group_lines (row_group fabric.now class row.now level) else [])) (S.told sink.old) (S.told sink.new) (S.faults sink.old) (S.faults sink.new) result }
{
    if !has_level(row, level) {
        return Ok(());
    }
    piece.clear();
    push_level_group(piece, fabric, class, row, level)?;
    put(sink, piece)
}

/// Puts a group for each level that a class has; its levels stand in the row.
fn put_level_groups<S: Sink>(
    sink: &mut S,
    piece: &mut Vec<u8>,
    fabric: &Fabric,
    class: usize,
    row: &[Option<u8>],
) -> Result<(), WriteFault>
    requires { length row.now ≡ length (lids_of fabric.now) }
    ensures { writing.PutsText (writing.lines_text (flat_map group_lines (map (row_group fabric.now class row.now) (filter (row_has row.now) all_levels)))) (S.told sink.old) (S.told sink.new) (S.faults sink.old) (S.faults sink.new) result }
{
    for level in 0..16 {
        put_level_group(sink, piece, fabric, class, row, level)?;
    }
    Ok(())
}

/// Puts the groups of a class: that of its sources, and one for each level that it has.
fn put_class_groups<S: Sink>(
    sink: &mut S,
    piece: &mut Vec<u8>,
    alloc: Global,
    reached: &Reached,
    lanes: &Lanes,
    classes: &Classes,
    class: usize,
) -> Result<(), WriteFault>
    requires lanes { LanesFit reached.now.fabric lanes.now }
    requires classes { AreClasses reached.now.fabric reached.now.entries lanes.now classes.now }
    requires class { class < length classes.now.least }
    ensures { writing.PutsText (writing.lines_text (flat_map group_lines (class_groups reached.now.fabric reached.now.entries lanes.now (class, slice_index classes.now.least class)))) (S.told sink.old) (S.told sink.new) (S.faults sink.old) (S.faults sink.new) result }
{
    let row = levels_of_source(alloc, reached, lanes, classes.least_source(class))?;
    piece.clear();
    push_class_group(piece, reached.fabric(), classes, class)?;
    put(sink, piece)?;
    put_level_groups(sink, piece, reached.fabric(), class, &row)
}

/// Puts the groups of all classes.
fn put_groups<S: Sink>(
    sink: &mut S,
    piece: &mut Vec<u8>,
    alloc: Global,
    reached: &Reached,
    lanes: &Lanes,
    classes: &Classes,
) -> Result<(), WriteFault>
    requires lanes { LanesFit reached.now.fabric lanes.now }
    requires classes { AreClasses reached.now.fabric reached.now.entries lanes.now classes.now }
    ensures { writing.PutsText (writing.lines_text (flat_map group_lines (flat_map (class_groups reached.now.fabric reached.now.entries lanes.now) (numbered_classes reached.now.fabric reached.now.entries lanes.now)))) (S.told sink.old) (S.told sink.new) (S.faults sink.old) (S.faults sink.new) result }
{
    for class in 0..classes.count() {
        put_class_groups(sink, piece, alloc, reached, lanes, classes, class)?;
    }
    Ok(())
}

/// Puts the groups of ports, with the lines about them.
fn put_port_groups<S: Sink>(
    sink: &mut S,
    piece: &mut Vec<u8>,
    alloc: Global,
    reached: &Reached,
    lanes: &Lanes,
    classes: &Classes,
) -> Result<(), WriteFault>
    requires lanes { LanesFit reached.now.fabric lanes.now }
    requires classes { AreClasses reached.now.fabric reached.now.entries lanes.now classes.now }
    ensures { writing.PutsText (writing.lines_text (enclosed (codes "port-groups") (flat_map group_lines (flat_map (class_groups reached.now.fabric reached.now.entries lanes.now) (numbered_classes reached.now.fabric reached.now.entries lanes.now))))) (S.told sink.old) (S.told sink.new) (S.faults sink.old) (S.faults sink.new) result }
{
    put(sink, b"port-groups\n")?;
    put_groups(sink, piece, alloc, reached, lanes, classes)?;
    put(sink, b"end-port-groups\n")
}

/// Appends the level of pairs that no rule matches.
fn push_default_level(text: &mut Vec<u8>, level: u8) -> Result<(), AllocError>
    ensures { OnOk result (text.new.items ≡ text.old.items ++ writing.lines_text (level_lines (record { name = default_name; sl = level }))) }
{
    push(text, b"qos-level\nname: default\nsl: ")?;
    push_dec(text, u64::from(level))?;
    push(text, b"\nend-qos-level\n")
}

/// Appends a level that goes by its number.
fn push_named_level(text: &mut Vec<u8>, level: u8) -> Result<(), AllocError>
    ensures { OnOk result (text.new.items ≡ text.old.items ++ writing.lines_text (level_lines (named_level level))) }
{
    push(text, b"qos-level\nname: level")?;
    push_dec(text, u64::from(level))?;
    push(text, b"\nsl: ")?;
    push_dec(text, u64::from(level))?;
    push(text, b"\nend-qos-level\n")
}

/// Appends the levels in use.
fn push_used_levels(text: &mut Vec<u8>, used: &[bool; 16]) -> Result<(), AllocError>
    ensures { OnOk result (text.new.items ≡ text.old.items ++ writing.lines_text (flat_map level_lines (map named_level (filter (is_set used.now) all_levels)))) }
{
    for level in 0..16u8 {
        if used[usize::from(level)] {
            push_named_level(text, level)?;
        }
    }
    Ok(())
}

/// Appends the levels, with the lines about them.
fn push_levels(text: &mut Vec<u8>, reached: &Reached, lanes: &Lanes) -> Result<(), AllocError>
    requires { LanesFit reached.now.fabric lanes.now }
    ensures { OnOk result (text.new.items ≡ text.old.items ++ writing.lines_text (enclosed (codes "qos-levels") (flat_map level_lines (named_levels reached.now.fabric reached.now.entries lanes.now)))) }
{
    let used = used_levels(reached, lanes);
    push(text, b"qos-levels\n")?;
    push_default_level(text, spare_level_of(&used))?;
    push_used_levels(text, &used)?;
    push(text, b"end-qos-levels\n")
}

/// Puts the levels.
fn put_levels<S: Sink>(
    sink: &mut S,
    piece: &mut Vec<u8>,
    reached: &Reached,
    lanes: &Lanes,
) -> Result<(), WriteFault>
    requires { LanesFit reached.now.fabric lanes.now }
    ensures { writing.PutsText (writing.lines_text (enclosed (codes "qos-levels") (flat_map level_lines (named_levels reached.now.fabric reached.now.entries lanes.now)))) (S.told sink.old) (S.told sink.new) (S.faults sink.old) (S.faults sink.new) result }
{
    piece.clear();
    push_levels(piece, reached, lanes)?;
    put(sink, piece)
}

/// Appends the rule that gives a class its level for the LIDs at which it has the level.
fn push_rule(text: &mut Vec<u8>, class: usize, level: u8) -> Result<(), AllocError>
    ensures { OnOk result (text.new.items ≡ text.old.items ++ writing.lines_text (rule_lines (level_rule class level))) }
{
    push(text, b"qos-match-rule\nsource: class")?;
    push_dec(text, class as u64)?;
    push(text, b"\ndestination: class")?;
    push_dec(text, class as u64)?;
    push(text, b"level")?;
    push_dec(text, u64::from(level))?;
    push(text, b"\nqos-level-name: level")?;
    push_dec(text, u64::from(level))?;
    push(text, b"\nend-qos-match-rule\n")
}

/// Appends a rule for each level that a class has; its levels stand in the row.
fn push_rules(text: &mut Vec<u8>, class: usize, row: &[Option<u8>]) -> Result<(), AllocError>
    ensures { OnOk result (text.new.items ≡ text.old.items ++ writing.lines_text (flat_map rule_lines (map (level_rule class) (filter (row_has row.now) all_levels)))) }
{
    for level in 0..16 {
        if has_level(row, level) {
            push_rule(text, class, level)?;
        }
    }
    Ok(())
}

/// Puts the rules of a class.
fn put_class_rules<S: Sink>(
    sink: &mut S,
    piece: &mut Vec<u8>,
    alloc: Global,
    reached: &Reached,
    lanes: &Lanes,
    classes: &Classes,
    class: usize,
) -> Result<(), WriteFault>
    requires lanes { LanesFit reached.now.fabric lanes.now }
    requires classes { AreClasses reached.now.fabric reached.now.entries lanes.now classes.now }
    requires class { class < length classes.now.least }
    ensures { writing.PutsText (writing.lines_text (flat_map rule_lines (class_rules reached.now.fabric reached.now.entries lanes.now (class, slice_index classes.now.least class)))) (S.told sink.old) (S.told sink.new) (S.faults sink.old) (S.faults sink.new) result }
{
    let row = levels_of_source(alloc, reached, lanes, classes.least_source(class))?;
    piece.clear();
    push_rules(piece, class, &row)?;
    put(sink, piece)
}

/// Puts the rules of all classes.
fn put_all_rules<S: Sink>(
    sink: &mut S,
    piece: &mut Vec<u8>,
    alloc: Global,
    reached: &Reached,
    lanes: &Lanes,
    classes: &Classes,
) -> Result<(), WriteFault>
    requires lanes { LanesFit reached.now.fabric lanes.now }
    requires classes { AreClasses reached.now.fabric reached.now.entries lanes.now classes.now }
    ensures { writing.PutsText (writing.lines_text (flat_map rule_lines (flat_map (class_rules reached.now.fabric reached.now.entries lanes.now) (numbered_classes reached.now.fabric reached.now.entries lanes.now)))) (S.told sink.old) (S.told sink.new) (S.faults sink.old) (S.faults sink.new) result }
{
    for class in 0..classes.count() {
        put_class_rules(sink, piece, alloc, reached, lanes, classes, class)?;
    }
    Ok(())
}

/// Puts the rules, with the lines about them.
fn put_rules<S: Sink>(
    sink: &mut S,
    piece: &mut Vec<u8>,
    alloc: Global,
    reached: &Reached,
    lanes: &Lanes,
    classes: &Classes,
) -> Result<(), WriteFault>
    requires lanes { LanesFit reached.now.fabric lanes.now }
    requires classes { AreClasses reached.now.fabric reached.now.entries lanes.now classes.now }
    ensures { writing.PutsText (writing.lines_text (enclosed (codes "qos-match-rules") (flat_map rule_lines (flat_map (class_rules reached.now.fabric reached.now.entries lanes.now) (numbered_classes reached.now.fabric reached.now.entries lanes.now))))) (S.told sink.old) (S.told sink.new) (S.faults sink.old) (S.faults sink.new) result }
{
    put(sink, b"qos-match-rules\n")?;
    put_all_rules(sink, piece, alloc, reached, lanes, classes)?;
    put(sink, b"end-qos-match-rules\n")
}

/// Puts the text of a plan's levels. After a fault the sink has a prefix of the text.
pub(crate) fn write_levels<S: Sink>(
    alloc: Global,
    reached: &Reached,
    lanes: &Lanes,
    sink: &mut S,
) -> Result<(), WriteFault>
    requires lanes { LanesFit reached.now.fabric lanes.now }
    ensures { writing.PutsText (levels_text reached.now.fabric reached.now.entries lanes.now) (S.told sink.old) (S.told sink.new) (S.faults sink.old) (S.faults sink.new) result }
{
    let classes = Classes::new(alloc, reached, lanes)?;
    let mut piece = Vec::new(alloc);
    put(sink, b"# fabroute levels\n")?;
    put_port_groups(sink, &mut piece, alloc, reached, lanes, &classes)?;
    put_levels(sink, &mut piece, reached, lanes)?;
    put_rules(sink, &mut piece, alloc, reached, lanes, &classes)
}
