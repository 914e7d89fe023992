//! Nue routing: a guarded search on the channel dependency graph of each lane, with an escape tree to fall back on.
#![tactic(auto)]

mod adding;
mod arenas;
mod choices;
mod completing;
mod crossing;
mod entries;
mod forests;
mod guarded_search;
mod home_lanes;
mod kept_lids;
mod laid;
mod laid_lids;
mod laws;
mod levels;
mod lid_list;
mod nue_plan;
mod numbered;
mod offering;
mod old_levels;
mod old_routes;
mod parts;
mod passing;
mod rebuilding;
mod room;
mod settled;
mod settling;
mod swapping;
mod trying;
mod weighing;

pub use choices::{Choice, Choices};
pub use guarded_search::{Searched, search};
pub use home_lanes::home;
pub use laid::Laid;
pub use laws::{
    completes_or_stuck, empty_tree_leads, laying_is_acyclic, nue_is_certified, nue_keeps_itself,
    nue_plan_exists, one_end, one_nue_plan, one_step, refused_stays_refused, search_ends,
    settling_leads, step_settles_one, swapping_leads,
};
pub use lid_list::LidList;
pub use nue_plan::nue;
pub use room::Room;
