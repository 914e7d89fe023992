//! The numbers that certify a plan: packets that hold one virtual channel and wait for the next never wait in a
//! ring where the numbers rise along every route (Dally and Seitz).
#![tactic(auto)]

mod certified;
mod collecting;
mod dependencies;
mod lane_per_level;
mod laws;
mod numbers;
mod one_lane;

pub use certified::{Certified, certify, lanes_read, refusal};
pub use collecting::node_of;
pub use dependencies::Dependencies;
pub use fab_rings::{Graph, Ring, first_ring, levels};
pub use lane_per_level::engine_lanes;
pub use laws::{
    certificate_exists, numbered_is_certified, one_certificate, plain_certificate,
    refusal_is_unsound,
};
pub use numbers::set_numbers;
