//! The numbers of a certificate: each virtual channel that is used has its level as number, so that the numbers
//! rise along every route. Dally and Seitz number channels so to show that none waits for itself.
//!
//! It takes a step for each channel and lane, and no memory.
ghost use Rattle.std.specs.Prelude.{◌≡◌, ◌*◌, ◌<◌, ◌^◌, length};
ghost use Rattle.fab_tables.specs.Dependencies.{node_of as number_by_lane};
ghost use Rattle.fab_tables.specs.LaneTables.{AreLaneTables};
ghost use Rattle.fab_certify.specs.Numbers.{number_given as number_by_level, HasNumbers};

use crate::collecting::node_of;
use crate::dependencies::Dependencies;
use fab_model::ChannelId;
use fab_tables::{Lanes, VirtualChannel};

/// Gives each virtual channel that is used its level as number, and 0 to every other.
pub fn set_numbers(lanes: &mut Lanes, channels: u32, dependencies: &Dependencies, levels: &[u32])
    requires whole { AreLaneTables lanes.old }
    requires channels { channels ≡ lanes.old.channels }
    requires used { length dependencies.now.used ≡ channels * lanes.old.count }
    requires levels { length levels.now ≡ channels * lanes.old.count }
    requires small { channels * lanes.old.count < 2 ^ 32 }
    ensures { HasNumbers dependencies.now levels.now lanes.old lanes.new }
{
    let count = lanes.count();
    for channel in 0..channels {
        for lane in 0..15 {
            let channel = ChannelId(channel);
            let hop = VirtualChannel { channel, lane };
            lanes.set_number(
                channel,
                lane,
                number_given(count, dependencies, levels, hop),
            );
        }
    }
}

/// The level of a virtual channel that is used, and 0 for any other.
fn number_given(count: u8, dependencies: &Dependencies, levels: &[u32], hop: VirtualChannel) -> u32
    requires used { hop.lane < count → number_by_lane count hop < length dependencies.now.used }
    requires levels { hop.lane < count → number_by_lane count hop < length levels.now }
    requires small { hop.lane < count → number_by_lane count hop < 2 ^ 32 }
    ensures { result ≡ number_by_level count dependencies.now levels.now hop }
{
    if hop.lane >= count {
        return 0;
    }
    let node = node_of(count, hop);
    if dependencies.is_used(node) {
        levels[node as usize]
    } else {
        0
    }
}
