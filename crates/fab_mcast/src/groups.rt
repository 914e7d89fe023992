//! Groups: each has a number and its members.
ghost use Rattle.std.specs.Prelude.{◌≡◌, ◌<◌, length, map, slice_get, Some, option_map};
ghost use Rattle.fab_model.specs.declared.rows.TerminalId.{TerminalId as Number};
ghost use Rattle.fab_mcast.specs.GroupList.{members_of, AreGroups, Group as Row};

use fab_model::TerminalId;
use std::marker::Model;

/// A group: its number, and its members in ascending order.
#[derive(Drop)]
pub(crate) struct Group {
    pub number: u16,
    pub members: Vec<TerminalId>,
}

/// Groups in the order of their list, each with its number and its members in ascending order. No two have one number.
#[derive(Drop)]
pub struct Groups {
    pub(crate) list: Vec<Group>,
}

impl Model for Groups {
    ghost use Rattle.std.specs.Prelude.{List, map};
    ghost use Rattle.fab_mcast.specs.GroupList.{Group, AreGroups};
    ghost use Rattle.fab_mcast.specs.Reading.{seen_group};

    ghost Value = { List Group };

    ghost view = { λ g. map seen_group g.list.items };

    ghost invariant = { λ g. AreGroups (map seen_group g.list.items) };
}

impl Groups {
    /// How many groups there are. Constant time.
    pub fn count(&self) -> u32
        ensures count { result ≡ length self.now }
        ensures kept { AreGroups self.now }
    {
        self.list.len() as u32
    }

    /// The number of the group at a place of the list, from 0xc000 to 0xfffe. Constant time.
    pub fn number(&self, index: u32) -> u16
        requires { index < length self.now }
        ensures { option_map (λ (g : Row). g.number) (slice_get self.now index) ≡ Some result }
    {
        self.list[index as usize].number
    }

    /// The members of the group at a place of the list, ascending. Constant time.
    pub fn members(&self, index: u32) -> &[TerminalId]
        requires { index < length self.now }
        ensures { members_of self.now index ≡ Some (map (λ (id : Number). id.0) result.now) }
    {
        self.list[index as usize].members.as_slice()
    }
}
