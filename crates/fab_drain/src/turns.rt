//! Whose turn it is while a load drains. Each packet is known by the number of its virtual channel: it stands among
//! those that are ready for a turn, or it waits for a virtual channel, and is ready again when that one is left.
ghost use Rattle.std.specs.Prelude.{◌≡◌, ◌<◌, ◌++◌, ◌∷◌, [], All, length, replicate, IfOk, IfSome, IfNone, OnOk, OnErr, slice_index_or, slice_set};
ghost use Rattle.fab_drain.specs.Turns.{those_for, AreWoken};

use std::alloc::{AllocError, Global};
use std::collections::BTreeSet;
use std::marker::Model;

/// For each virtual channel by its number, the numbers of those whose packets wait for it.
#[derive(Drop)]
pub(crate) struct Waiting {
    lists: Vec<Vec<u32>>,
}

impl Model for Waiting {
    ghost use Rattle.std.specs.Prelude.{List, ℕ, map};

    ghost Value = { List (List ℕ) };

    ghost view = { λ w. map (λ v. v.items) w.lists.items };
}

impl Waiting {
    /// None waits.
    fn new(alloc: Global, count: u32) -> Result<Waiting, AllocError>
        ensures { IfOk result (λ w. w ≡ replicate count []) }
    {
        let mut lists = Vec::with_capacity(alloc, count as usize)?;
        for _ in 0..count {
            lists.push(Vec::new(alloc))?;
        }
        Ok(Waiting { lists })
    }

    /// One more waits for a virtual channel.
    pub(crate) fn push(&mut self, awaited: u32, number: u32) -> Result<(), AllocError>
        requires { awaited < length self.old }
        ensures { OnOk result (self.new ≡ slice_set self.old awaited (slice_index_or self.old awaited [] ++ number ∷ [])) }
    {
        self.lists[awaited as usize].push(number)?;
        Ok(())
    }

    /// Those that wait for a virtual channel.
    fn of(&self, awaited: u32) -> &[u32]
        requires { awaited < length self.now }
        ensures { result.now ≡ those_for self.now awaited }
    {
        self.lists[awaited as usize].as_slice()
    }

    /// None waits for a virtual channel any more.
    fn clear(&mut self, awaited: u32)
        requires { awaited < length self.old }
        ensures { self.new ≡ slice_set self.old awaited [] }
    {
        self.lists[awaited as usize].clear();
    }
}

/// The packets that are ready, and those that wait.
#[derive(Drop)]
pub(crate) struct Turns {
    pub(crate) ready: BTreeSet<u32>,
    pub(crate) waiting: Waiting,
}

impl Turns {
    /// None is ready, and none waits.
    pub(crate) fn new(alloc: Global, count: u32) -> Result<Turns, AllocError>
        ensures ready { IfOk result (λ turns. turns.ready.keys ≡ []) }
        ensures waiting { IfOk result (λ turns. turns.waiting ≡ replicate count []) }
    {
        Ok(Turns {
            ready: BTreeSet::new(alloc),
            waiting: Waiting::new(alloc, count)?,
        })
    }

    /// Takes out the least of those that are ready.
    pub(crate) fn take_first(&mut self) -> Option<u32>
        ensures taken { IfSome result (λ number. self.old.ready.keys ≡ number ∷ self.new.ready.keys) }
        ensures least { IfSome result (λ number. All (λ other. number < other) self.new.ready.keys) }
        ensures none { IfNone result (self.old.ready.keys ≡ []) }
        ensures unchanged { IfNone result (self.new.ready.keys ≡ self.old.ready.keys) }
        ensures waiting { self.new.waiting ≡ self.old.waiting }
    {
        self.ready.pop_first()
    }

    /// A virtual channel is left: those that waited for it are ready.
    pub(crate) fn wake(&mut self, left: u32) -> Result<(), AllocError>
        requires { left < length self.old.waiting }
        ensures { OnOk result (AreWoken left self.old.ready.keys self.new.ready.keys self.old.waiting self.new.waiting) }
    {
        for number in self.waiting.of(left) {
            self.ready.insert(*number)?;
        }
        self.waiting.clear(left);
        Ok(())
    }
}
