//! Forwarding tables, service levels and lane maps, following, what a check of a plan answers, and what checking
//! and certifying share: the components of a fabric, the starts of packets, the first route that isn't
//! delivered.
#![tactic(auto)]

mod columns;
mod components;
mod end;
mod following;
mod judging;
mod lane_faults;
mod lanes;
mod laws;
mod level_byte;
mod marks;
mod pairs;
mod plan;
mod reaching;
mod route_hops;
mod starts;
mod tables;
mod tree;
mod verdict;

pub use columns::Columns;
pub use components::Components;
pub use end::End;
pub use following::{Following, follow};
pub use lane_faults::{LaneFaults, first_lane_fault};
pub use lanes::{Lanes, PairFault, PairRow};
pub use laws::{
    lanes_is_certified, loop_is_long, loop_repeats, one_entry_changes, one_lane_changes,
    one_level_changes, one_number_changes, one_pair_changes, one_refusal, one_verdict,
    plain_agrees, plain_verdict_agrees, reading_agrees, refusal_or_none,
    rising_is_free_of_deadlock, routes_reaches, verdict_exists,
};
pub use marks::Marks;
pub use plan::Plan;
pub use reaching::first_unreached;
pub use route_hops::{RouteHops, hops};
pub use starts::{Start, Starts, starts_of};
pub use tables::Tables;
pub use tree::Tree;
pub use verdict::{Verdict, VirtualChannel};
