//! Whether the answers to packets keep the order of a certificate too.
#![tactic(auto)]

mod certifying;
mod collecting;
mod laws;
mod reading;
mod replied;

pub use certifying::replies;
pub use laws::{
    acyclic_by_level_is_numbered, acyclic_is_numbered, answer_exists, numbers_cover, one_answer,
    ring_is_deadlocked, same_level_is_packet,
};
pub use replied::Replied;
