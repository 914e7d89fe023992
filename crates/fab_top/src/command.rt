//! The commands that the words may ask for. Files are named by the places of their words, so that one name may stand
//! for two files, as `-` does.

use crate::guid_list::GuidList;
use fab_export::Part;
use fab_model::Lid;
use fab_report::Recipe;
use fab_sweep::Failing;

/// A routing engine, with what it is asked for.
#[derive(Drop)]
pub enum Engine {
    /// Shortest routes, balanced at each switch by how many terminals' LIDs go by each port.
    MinHop,
    /// Shortest routes by the least port: dimension-order routing where port numbers stand for dimensions.
    Dor,
    /// Walks of least weight, LID after LID; the routes laid before weigh down their channels.
    Sssp,
    /// Routes that go up to a root and then down, with the GUIDs of the roots.
    Updn(GuidList),
    /// DOR's routes, and each pair of switches in the first lane in which it closes no walk, on so many lanes, 1 to 15.
    Lash(u8),
    /// Walks of least weight, whose rings are broken by moving routes to the next lane, on so many lanes, 1 to 15.
    Dfsssp(u8),
    /// Routes found one destination after the other that close no ring with those before them, on so many lanes, 1 to 15.
    Nue(u8),
}

/// What the words ask for. A file is named by the place of its word in the list of words, from 0.
#[derive(Drop)]
pub enum Command {
    /// The verdict on a plan of a fabric.
    Check {
        fabric: usize,
        plan: usize,
    },
    /// The plan that an engine lays for a fabric.
    Route {
        fabric: usize,
        engine: Engine,
    },
    /// A plan of a fabric with the numbers that certify it, or the first fault or the ring that forbids them.
    Certify {
        fabric: usize,
        plan: usize,
    },
    /// A plan of a fabric, written as plans are written now.
    Convert {
        fabric: usize,
        plan: usize,
    },
    /// The plan for a fabric without the cables of a list, which keeps of an old plan each LID that can stay, on so many
    /// lanes, 1 to 15.
    Repair {
        fabric: usize,
        plan: usize,
        failed: usize,
        lanes: u8,
    },
    /// A fabric without the cables of a list.
    Cut {
        fabric: usize,
        failed: usize,
    },
    /// The route of a plan from the place of one LID to another.
    Show {
        fabric: usize,
        plan: usize,
        from: Lid,
        to: Lid,
    },
    /// How many routes of a plan go over each channel of its fabric.
    Load {
        fabric: usize,
        plan: usize,
    },
    /// The fabric of a recipe, which fits.
    Gen {
        recipe: Recipe,
    },
    /// The counts of the plan that an engine lays for the fabric of a recipe, which fits.
    Demo {
        recipe: Recipe,
        engine: Engine,
    },
    /// Whether the tables of a fabric may be changed under traffic from an old plan to a new one.
    Transit {
        fabric: usize,
        old: usize,
        new: usize,
    },
    /// How packets drain that fill a fabric, one on each virtual channel that some route of a plan uses.
    Drain {
        fabric: usize,
        plan: usize,
    },
    /// The trees of groups, as the entries of each switch.
    Mcast {
        fabric: usize,
        groups: usize,
    },
    /// The terminals that a packet to the group of a number, from 0xc000 to 0xfffe, reaches from the member that has a LID.
    Spread {
        fabric: usize,
        groups: usize,
        group: u16,
        from: Lid,
    },
    /// What each single failure of cables or switches costs a plan that is repaired after it on so many lanes, 1 to 15.
    Sweep {
        what: Failing,
        fabric: usize,
        plan: usize,
        lanes: u8,
    },
    /// A part of a plan as a subnet manager loads it.
    Export {
        part: Part,
        fabric: usize,
        plan: usize,
    },
    /// Whether the answers to a plan's packets keep an order with them too, on numbers or in a ring.
    Replies {
        fabric: usize,
        plan: usize,
    },
}
