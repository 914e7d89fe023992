//! Up/down routing: a route that went down doesn't go up again.
#![tactic(auto)]

mod cost_table;
mod costs;
mod first_pair;
mod keys;
mod laws;
mod legal_ports;
mod ranks;
mod tables;
mod up_down;

pub use laws::{
    legal_turns_are_acyclic, no_down_then_up, one_list_of_ranks, one_rank, one_refused_pair,
    one_root_never_refused, one_up_down_plan, plan_or_refusal, plan_or_refusal_exists,
    unnamed_never_refused, up_down_reaches,
};
pub use up_down::{UpdnFault, updn};
