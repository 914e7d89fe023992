//! What Nue answers.
use crate::lid_list::LidList;
use fab_depgraph::Layers;
use fab_tables::Plan;

/// A plan of Nue, the LIDs that it kept of an old plan, and lane by lane the dependencies in use.
#[derive(Drop)]
pub struct Laid {
    pub plan: Plan,
    pub kept: LidList,
    pub used: Layers,
}
