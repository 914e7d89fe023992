//! A heap of the channels that a search may take next, the one whose way weighs least first.
//!
//! Its room is made before the search, so that a search takes no memory. With n choices in it `push` and `pop` take
//! O(log n) time; its memory is that of as many choices as there is room for.
ghost use Rattle.std.specs.Prelude.{◌≡◌, ◌<◌, [], length, IfOk, MatchOption};
ghost use Rattle.fab_nue.specs.Choices.{GainsChoice, LosesLeast};

use fab_model::ChannelId;
use std::alloc::{AllocError, Global};
use std::cmp::Reverse;
use std::collections::BinaryHeap;
use std::marker::Model;

/// A channel that may be taken, and the weight of the way that it begins.
#[derive(Clone, Copy, Debug, PartialEq, Eq, PartialOrd, Ord)]
pub struct Choice {
    pub weight: u64,
    pub channel: ChannelId,
}

/// A heap of choices, of which the least (weight, channel) comes first. Contracts see its room, and what stands in it
/// in no fixed order.
#[derive(Drop)]
pub struct Choices {
    most: u32,
    heap: BinaryHeap<Reverse<Choice>>,
}

impl Model for Choices {
    ghost use Rattle.std.specs.BinaryHeap.{heap_items, heap_capacity};
    ghost use Rattle.fab_nue.specs.Choices.{Held, IsHeldIn, choices_of};

    ghost Value = { Held };

    ghost view = { λ c. record { room = c.most; entries = choices_of (heap_items c.heap) } };

    ghost invariant = { λ c. IsHeldIn c.most (heap_capacity c.heap) (heap_items c.heap) };
}

impl Choices {
    /// A heap without choices, with room for so many. The error is want of memory.
    pub fn new(alloc: Global, room: u32) -> Result<Choices, AllocError>
        ensures room { IfOk result (λ choices. choices.room ≡ room) }
        ensures empty { IfOk result (λ choices. choices.entries ≡ []) }
    {
        let heap = BinaryHeap::with_capacity(alloc, room as usize)?;
        Ok(Choices { most: room, heap })
    }

    /// Puts a choice in, for which there is room. It takes no memory.
    pub fn push(&mut self, choice: Choice)
        requires { length self.old.entries < self.old.room }
        ensures { GainsChoice self.old self.new choice }
    {
        self.heap.push(Reverse(choice)).unwrap();
    }

    /// Takes out all entries, and keeps the room. It takes no memory.
    pub(crate) fn clear(&mut self)
        ensures room { self.new.room ≡ self.old.room }
        ensures empty { self.new.entries ≡ [] }
    {
        self.heap.clear();
    }

    /// Takes out one entry with the least (weight, channel). None exactly where nothing stands in it.
    pub fn pop(&mut self) -> Option<Choice>
        ensures { MatchOption result ((self.old.entries ≡ []) × (self.new ≡ self.old)) (λ choice. LosesLeast self.old self.new choice) }
    {
        let Reverse(choice) = self.heap.pop()?;
        Some(choice)
    }
}
