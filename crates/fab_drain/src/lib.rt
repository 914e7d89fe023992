//! Loads of packets that wait for each other, and how they drain.
#![tactic(auto)]

mod draining;
mod filling;
mod laws;
mod packet;
mod packet_hops;
mod state;
mod turns;

pub use filling::fill;
pub use laws::{
    certified_loads_drain, emptied_is_load, empty_moves_all_hops, filling_exists, loads_end,
    moves_keep_loads, moves_take_one_hop, one_draining, one_filling, some_packet_moves,
};
pub use packet::{Moved, Packet, Put};
pub use state::{Drained, Filled, State};
