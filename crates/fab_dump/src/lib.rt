//! The text of plans: written, and read in each of its versions.
//!
//! `read_plan` takes plan texts of the versions 1 to 3 (docs/PLAN_TEXT.md) and plain dumps of forwarding tables,
//! in the shape that `ibroute` and `dump_lfts` print. `write_plan` writes versions 2 and 3. Both are defined by
//! functions that compute, in `specs/Reading.antt` and `specs/Writing.antt`, and the laws of this crate join
//! them: what is written is read again. Reading and writing take the time of the text and the plan.
#![tactic(auto)]

mod fault;
mod fields;
mod form;
mod heads;
mod lane_rows;
mod laws;
mod level_rows;
mod line_kind;
mod read;
mod reader;
mod rows;
mod statements;
mod table_rows;
mod write;
mod write_blocks;

pub use fault::PlanFault;
pub use laws::{read_is_tidy, written_is_read, written_is_short};
pub use read::read_plan;
pub use write::{WriteFault, put, write_plan};
pub use write_blocks::{push_guid, push_lid, push_numbers, push_port, push_table_head};
