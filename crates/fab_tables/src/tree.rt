ghost use Rattle.std.specs.Prelude.{◌≡◌, ℕ, ◌<◌, length, IfOk, IfSome, None, List, Option, replicate, option_map, slice_set};
ghost use Rattle.fab_model.specs.declared.rows.ChannelId.{ChannelId as Channel};
ghost use Rattle.fab_tables.specs.Trees.{next, LeavesSwitch};

use fab_model::{ChannelId, Fabric, SwitchId};
use std::alloc::{AllocError, Global};
use std::marker::Model;

/// For one destination a channel for each switch, if it has one.
#[derive(Drop)]
pub struct Tree {
    channels: Vec<Option<u32>>,
}

impl Model for Tree {
    ghost use Rattle.std.specs.Prelude.{List, Option, ℕ};

    ghost Value = { List (Option ℕ) };

    ghost view = { λ t. t.channels.items };
}

impl Tree {
    /// A tree in which no switch has a channel.
    pub fn new(alloc: Global, fabric: &Fabric) -> Result<Tree, AllocError>
        ensures { IfOk result (λ t. t ≡ replicate (length fabric.now.switches) None) }
    {
        let channels = vec![in alloc; None; fabric.switches() as usize]?;
        Ok(Tree { channels })
    }

    /// The channel of a switch.
    pub fn next(&self, s: SwitchId) -> Option<ChannelId>
        requires { s.0 < length self.now }
        ensures { option_map (λ (c : Channel). c.0) result ≡ next self.now s.0 }
    {
        match self.channels[s.0 as usize] {
            None => None,
            Some(c) => Some(ChannelId(c)),
        }
    }

    /// Gives a switch this channel, or none. The other switches keep theirs.
    pub fn set(&mut self, fabric: &Fabric, s: SwitchId, c: Option<ChannelId>)
        requires switch { s.0 < length self.old }
        requires leaves { IfSome c (λ d. LeavesSwitch fabric.now d.0 s.0) }
        ensures { self.new ≡ slice_set self.old s.0 (option_map (λ (d : Channel). d.0) c) }
    {
        self.channels[s.0 as usize] = match c {
            None => None,
            Some(d) => Some(d.0),
        };
    }
}
