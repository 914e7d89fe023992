//! Whether the tables of a fabric may be changed under traffic.
#![tactic(auto)]

mod changes;
mod faults;
mod found;
mod laws;
mod levels;
mod mixed;
mod plans;
mod walks;

pub use changes::transit;
pub use laws::{answer_exists, numbers_are_safe, one_answer};
pub use mixed::{Mixed, Side};
