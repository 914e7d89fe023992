//! What a tree towards a LID does to the tables and the weights: each switch's entry is the port of its channel, and
//! each channel weighs more by the terminals whose route contains it.
//!
//! Linear time in switches and terminals, no memory.
ghost use Rattle.std.specs.Prelude.{◌≡◌, ◌<◌, length};
ghost use Rattle.fab_model.specs.Topology.{lids_of};
ghost use Rattle.fab_model.specs.WellFormed.{IsFabric};
ghost use Rattle.fab_tables.specs.FixedEntries.{HasFixedEntries};
ghost use Rattle.fab_sssp.specs.WeightTables.{WeightsFit};
ghost use Rattle.fab_nue.specs.Laying.{IsTreeToward, HasEntriesOf, WeighsMore};

use fab_model::{Fabric, Lid, SwitchId};
use fab_sssp::Weights;
use fab_tables::{Tables, Tree};

/// Lets the routes to a LID go along a tree, and raises the weights of their channels.
pub(crate) fn take_tree(
    fabric: &Fabric,
    lid: Lid,
    tree: &Tree,
    tables: &mut Tables,
    weights: &mut Weights,
)
    requires fabric { IsFabric fabric.now }
    requires tree { IsTreeToward fabric.now lid.0 tree.now }
    requires tables { HasFixedEntries fabric.now tables.old }
    requires made_for { WeightsFit fabric.now weights.old }
    requires few { weights.old.raised < length (lids_of fabric.now) }
    ensures entries { HasEntriesOf fabric.now lid.0 tree.now tables.old tables.new }
    ensures weights { WeighsMore fabric.now tables.new lid.0 weights.old weights.new }
{
    set_entries(fabric, lid, tree, tables);
    weights.raise(fabric, tree);
}

/// Gives each switch that has a channel in the tree the channel's port for the LID.
fn set_entries(fabric: &Fabric, lid: Lid, tree: &Tree, tables: &mut Tables)
    requires fabric { IsFabric fabric.now }
    requires tree { IsTreeToward fabric.now lid.0 tree.now }
    requires tables { HasFixedEntries fabric.now tables.old }
    ensures { HasEntriesOf fabric.now lid.0 tree.now tables.old tables.new }
{
    for s in 0..fabric.switches() {
        let switch = SwitchId(s);
        if let Some(channel) = tree.next(switch) {
            tables.set(switch, lid, fabric.channel(channel).port);
        }
    }
}
