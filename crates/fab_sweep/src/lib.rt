//! What each single failure costs: a repair for each cable or switch that may fail.
//!
//! An operator wants to know before a cable or a switch fails how many destinations would be cut off, and how much of
//! the plan in use a repair would touch. [`sweep`] repairs the plan after each single failure and counts that. The
//! definitions are in `specs/Failures.antt` and `specs/Sweeps.antt`.
#![tactic(auto)]

mod costs;
mod failures;
mod laws;
mod rows;

pub use laws::{failures_are_known, one_sweep, sweep_exists};
pub use rows::{SweepRow, Swept, sweep};

/// What fails in a sweep: one cable after the other, or one switch after the other.
#[derive(Clone, Copy, Debug, PartialEq, Eq)]
pub enum Failing {
    /// Each cable between switches, by the lower of its two channels.
    Cables,
    /// Each switch with all its cables, by number.
    Switches,
}
