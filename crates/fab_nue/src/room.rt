//! The working room of searches. It is made once for a fabric, so that the searches that follow take no memory.
//!
//! Memory: a choice for each channel.
ghost use Rattle.std.specs.Prelude.{◌≡◌, length, IfOk};

use crate::choices::Choices;
use fab_model::Fabric;
use std::alloc::{AllocError, Global};
use std::marker::Model;

/// The working room of searches on a fabric, seen as the number of channels for which there is room.
#[derive(Drop)]
pub struct Room {
    pub(crate) choices: Choices,
}

impl Model for Room {
    ghost use Rattle.std.specs.Prelude.{ℕ};

    ghost Value = { ℕ };

    ghost view = { λ r. r.choices.room };
}

impl Room {
    /// The room of a search on this fabric. The error is want of memory.
    pub fn new(alloc: Global, fabric: &Fabric) -> Result<Room, AllocError>
        ensures { IfOk result (λ room. room ≡ length fabric.now.channels) }
    {
        let choices = Choices::new(alloc, fabric.channels())?;
        Ok(Room { choices })
    }
}
