//! Groups of terminals, the trees on which packets reach them, and what a packet reaches.
//!
//! A list of groups, read by [`read_groups`], names each group by its number and its members by their LIDs.
//! [`plant`] gives each switch an entry for each group: the ports to which it sends a packet of the group. They lie in
//! the escape trees of lane 0, so that a packet of a member comes to each other member of its component once, as
//! [`spread`] tells. The definitions are in `specs/GroupList.antt`, `specs/GroupTrees.antt` and `specs/Spreads.antt`.
#![tactic(auto)]

mod copies;
mod entries;
mod fault;
mod group_list;
mod group_tables;
mod groups;
mod laws;
mod ways;

pub use copies::spread;
pub use fault::GroupFault;
pub use group_list::read_groups;
pub use group_tables::{GroupTables, plant};
pub use groups::Groups;
pub use laws::{
    one_planting, one_spread, planted_reaches, planting_exists, read_groups_are_known,
    spread_exists,
};
