//! The lines for the subnet manager's own file, put to a sink.
//!
//! Problem: where the two other texts are and, for a plan with lanes, one map from levels to lanes for all switches,
//! with equal weights for the lanes. Definition: `config_text` in `specs/ConfigText.antt`; the keys are those of the
//! subnet manager's `opensm.conf`. The levels in use take one pass over sources and LIDs, and the text, which has at
//! most two kilobytes, is put as one piece.
ghost use Rattle.std.specs.Prelude.{◌≡◌, ◌<◌, ◌≤◌, ◌++◌, ◌∷◌, [], ℕ, All, IfSome, OnOk, length, map, codes, decimal, option_copied};
ghost use Rattle.std.specs.List.{flat_map};
ghost use Rattle.fab_model.specs.Topology.{Topology};
ghost use Rattle.fab_tables.specs.Entries.{Entries};
ghost use Rattle.fab_tables.specs.LaneTables.{LaneTables};
ghost use Rattle.fab_tables.specs.Fit.{LanesFit};
ghost use Rattle.fab_dump.specs.Writing as writing;
ghost use Rattle.fab_export.specs.LevelsInUse.{all_levels, is_in_use, written_map, written_count};
ghost use Rattle.fab_export.specs.ConfigText.{comma_before, weights_text, map_text, kind_lines, routing_lines, lane_lines};

use crate::reached::Reached;
use crate::used_levels::{used_levels, written_map_of};
use fab_dump::{WriteFault, put};
use fab_io::Sink;
use fab_tables::Lanes;
use fab_text::{push, push_dec};
use std::alloc::{AllocError, Global};

const ROUTING: &[u8] = b"# fabroute config\n\
routing_engine file,no_fallback\n\
lfts_file /etc/opensm/fabroute.tables\n\
lid_matrix_dump_file (null)\n\
use_ucast_cache FALSE\n\
lmc 0\n\
reassign_lids FALSE\n\
honor_guid2lid_file TRUE\n";

const QUALITY: &[u8] = b"max_op_vls 5\n\
qos TRUE\n\
qos_policy_file /etc/opensm/fabroute.levels\n";

/// All ports, and then adapters', switches' own, switches' and routers' ports.
const PORT_KINDS: [&[u8]; 5] = [b"qos", b"qos_ca", b"qos_sw0", b"qos_swe", b"qos_rtr"];

/// One more than the greatest lane of a level in use; 0 where none is.
fn lane_count(written: &[u8; 16], used: &[bool; 16]) -> u8
    requires { All (λ lane. lane < 16) written.now }
    ensures { (t : Topology) (e : Entries) (l : LaneTables) → used.now ≡ map (is_in_use t e l) all_levels → written.now ≡ written_map t e l → result ≡ written_count t e l }
{
    let mut count = 0;
    for level in 0..16 {
        if used[level] {
            count = count.max(written[level] + 1);
        }
    }
    count
}

/// Appends a comma, but in front of the first.
fn push_comma(text: &mut Vec<u8>, place: usize) -> Result<(), AllocError>
    ensures { OnOk result (text.new.items ≡ text.old.items ++ comma_before place) }
{
    if place == 0 {
        return Ok(());
    }
    push(text, b",")
}

/// Appends each lane below the count, with equal weights.
fn push_weights(text: &mut Vec<u8>, count: u8) -> Result<(), AllocError>
    ensures { OnOk result (text.new.items ≡ text.old.items ++ weights_text count) }
{
    for lane in 0..count {
        push_comma(text, usize::from(lane))?;
        push_dec(text, u64::from(lane))?;
        push(text, b":64")?;
    }
    Ok(())
}

/// Appends the lanes of a map.
fn push_map(text: &mut Vec<u8>, lanes: &[u8]) -> Result<(), AllocError>
    ensures { OnOk result (text.new.items ≡ text.old.items ++ map_text lanes.now) }
{
    for (place, lane) in lanes.iter().enumerate() {
        push_comma(text, place)?;
        push_dec(text, u64::from(*lane))?;
    }
    Ok(())
}

/// Appends the line of a kind's lane count.
fn push_count_line(text: &mut Vec<u8>, kind: &[u8], count: u8) -> Result<(), AllocError>
    ensures { OnOk result (text.new.items ≡ text.old.items ++ writing.lines_text ((kind.now ++ codes "_max_vls " ++ decimal count) ∷ [])) }
{
    push(text, kind)?;
    push(text, b"_max_vls ")?;
    push_dec(text, u64::from(count))?;
    push(text, b"\n")
}

/// Appends the line of a kind's limit of the high table: one packet.
fn push_limit_line(text: &mut Vec<u8>, kind: &[u8]) -> Result<(), AllocError>
    ensures { OnOk result (text.new.items ≡ text.old.items ++ writing.lines_text ((kind.now ++ codes "_high_limit 0") ∷ [])) }
{
    push(text, kind)?;
    push(text, b"_high_limit 0")?;
    push(text, b"\n")
}

/// Appends the line of one of a kind's two tables of weights, under its key.
fn push_weights_line(
    text: &mut Vec<u8>,
    kind: &[u8],
    key: &[u8],
    count: u8,
) -> Result<(), AllocError>
    ensures { OnOk result (text.new.items ≡ text.old.items ++ writing.lines_text ((kind.now ++ key.now ++ weights_text count) ∷ [])) }
{
    push(text, kind)?;
    push(text, key)?;
    push_weights(text, count)?;
    push(text, b"\n")
}

/// Appends the line of a kind's map.
fn push_map_line(text: &mut Vec<u8>, kind: &[u8], lanes: &[u8]) -> Result<(), AllocError>
    ensures { OnOk result (text.new.items ≡ text.old.items ++ writing.lines_text ((kind.now ++ codes "_sl2vl " ++ map_text lanes.now) ∷ [])) }
{
    push(text, kind)?;
    push(text, b"_sl2vl ")?;
    push_map(text, lanes)?;
    push(text, b"\n")
}

/// Appends the lines of a kind of ports.
fn push_kind(text: &mut Vec<u8>, kind: &[u8], count: u8, lanes: &[u8]) -> Result<(), AllocError>
    ensures { OnOk result (text.new.items ≡ text.old.items ++ writing.lines_text (kind_lines count lanes.now kind.now)) }
{
    push_count_line(text, kind, count)?;
    push_limit_line(text, kind)?;
    push_weights_line(text, kind, b"_vlarb_high ", count)?;
    push_weights_line(text, kind, b"_vlarb_low ", count)?;
    push_map_line(text, kind, lanes)
}

/// Appends the lines of some kinds of ports.
fn push_kinds(
    text: &mut Vec<u8>,
    kinds: &[&[u8]],
    count: u8,
    lanes: &[u8],
) -> Result<(), AllocError>
    ensures { OnOk result (text.new.items ≡ text.old.items ++ writing.lines_text (flat_map (kind_lines count lanes.now) (map (λ kind. kind.now) kinds.now))) }
{
    for kind in kinds {
        push_kind(text, kind, count, lanes)?;
    }
    Ok(())
}

/// Appends the lines by which levels have their lanes.
fn push_lanes(text: &mut Vec<u8>, reached: &Reached, lanes: &Lanes) -> Result<(), AllocError>
    requires lanes { LanesFit reached.now.fabric lanes.now }
    requires some { 0 < lanes.now.switches }
    ensures { OnOk result (text.new.items ≡ text.old.items ++ writing.lines_text (lane_lines reached.now.fabric reached.now.entries (Some lanes.now))) }
{
    let used = used_levels(reached, lanes);
    let written = written_map_of(lanes, &used);
    push(text, QUALITY)?;
    push_kinds(text, &PORT_KINDS, lane_count(&written, &used), &written)
}

/// Appends these lines, if the plan has lanes.
fn push_lane_part(
    text: &mut Vec<u8>,
    reached: &Reached,
    lanes: Option<&Lanes>,
) -> Result<(), AllocError>
    requires lanes { IfSome lanes (λ l. LanesFit reached.now.fabric l.now) }
    requires some { IfSome lanes (λ l. 0 < l.now.switches) }
    ensures { OnOk result (text.new.items ≡ text.old.items ++ writing.lines_text (lane_lines reached.now.fabric reached.now.entries (option_copied lanes.entry))) }
{
    match lanes {
        Some(lanes) => push_lanes(text, reached, lanes),
        None => Ok(()),
    }
}

/// Puts the lines for the subnet manager's own file.
pub(crate) fn write_config<S: Sink>(
    alloc: Global,
    reached: &Reached,
    lanes: Option<&Lanes>,
    sink: &mut S,
) -> Result<(), WriteFault>
    requires lanes { IfSome lanes (λ l. LanesFit reached.now.fabric l.now) }
    requires some { IfSome lanes (λ l. 0 < l.now.switches) }
    ensures { writing.PutsText (writing.lines_text (routing_lines ++ lane_lines reached.now.fabric reached.now.entries (option_copied lanes.entry))) (S.told sink.old) (S.told sink.new) (S.faults sink.old) (S.faults sink.new) result }
{
    let mut text = Vec::new(alloc);
    push(&mut text, ROUTING)?;
    push_lane_part(&mut text, reached, lanes)?;
    put(sink, &text)
}
