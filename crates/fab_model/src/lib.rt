//! The subnet: raw records as a text states them, and the fabric that they make.
//!
//! A fabric is InfiniBand's subnet as a router sees it: switches, channel adapters, the LIDs in use and the cables.
//! Records state each cable from both of its ends; they make a fabric unless one of twelve faults stands in them,
//! of which the first is told with its line. What every fabric keeps is stated once, as facts on its rows, and it is
//! proved that these say just that the rows, written out as records, make the fabric again.
//!
//! Costs: a fabric of n records is made in O(n log n) time; afterwards its rows are found in constant time.
#![tactic(auto)]

mod building;
mod desc;
mod fabric;
mod fault;
mod first_fault;
mod indexes;
mod laws;
mod raw;
mod rows;

pub use desc::Desc;
pub use fabric::Fabric;
pub use fault::{FabricFault, WithoutFault};
pub use laws::{faultless_make, well_formed_make_themselves, without_keeps_no_own_cable};
pub use raw::{NodeKind, Raw, RawLink, RawNode};
pub use rows::{
    AdapterRow, Cable, ChannelId, ChannelRow, Lid, Place, SwitchId, SwitchRow, TerminalId,
    TerminalRow,
};
