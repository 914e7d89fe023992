//! Repair after failed cables: the list of them, read, and the plan without them.
//!
//! An operator names the cables that failed, one a line, each by the GUID of a switch at one of its ends and the port
//! there. [`read_failed`] gives them in the order of the list, or its first bad line. [`repair`] lays a plan for what is
//! left, and keeps each LID of the old plan that can stay. The definitions are in `specs/FailedList.antt` and
//! `specs/Repairs.antt`.
#![tactic(auto)]

mod failed_list;
mod fault;
mod laws;
mod repaired;

pub use failed_list::read_failed;
pub use fault::{FailedFault, RepairFault};
pub use laws::{kept_stay, nothing_failed, one_repair, repair_exists};
pub use repaired::{Repaired, repair};
