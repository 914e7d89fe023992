//! An order of the channels.
//!
//! Each channel has a number, and each number from 0 on, below the count of the channels, is that of one channel.
//! The channels of a range of numbers can be put in another order: those that a search didn't reach first, then
//! those that it reached. This takes time linear in the range and no memory. 12 bytes a channel.
ghost use Rattle.std.specs.Prelude.{◌≡◌, ◌≢◌, ℕ, ◌+◌, ◌^◌, ◌<◌, ◌≤◌, ◌++◌, length, filter, IfOk, All, AllPairs, slice_index, vec_capacity};
ghost use Rattle.std.specs.List.{range_with_len};
ghost use Rattle.fab_depgraph.specs.Order.{IsOrder, AreNumbers, IsMovedBehind, AreNumberedFrom, is_reached, is_unreached};

use fab_model::ChannelId;
use std::alloc::{AllocError, Global};
use std::marker::Model;

/// Numbers of the channels, seen as the list of them, channel by channel.
#[derive(Drop)]
pub(crate) struct Order {
    numbers: Vec<u32>,
    /// Number by number its channel.
    channels: Vec<u32>,
    /// Room for the channels that are moved behind others.
    moved: Vec<u32>,
}

impl Model for Order {
    ghost use Rattle.std.specs.Prelude.{List, ℕ, length, ◌≤◌, vec_capacity};
    ghost use Rattle.fab_depgraph.specs.Order.{IsOrder};

    ghost Value = { List ℕ };

    ghost view = { λ o. o.numbers.items };

    ghost invariant = { λ o. IsOrder o.numbers.items o.channels.items × (length o.numbers.items ≤ vec_capacity o.moved) };
}

impl Order {
    /// The channels by their own numbers.
    pub(crate) fn new(alloc: Global, channels: u32) -> Result<Order, AllocError>
        ensures own { IfOk result (λ order. order ≡ range_with_len 0 channels) }
        ensures numbers { IfOk result AreNumbers }
    {
        Ok(Order {
            numbers: all_below(alloc, channels)?,
            channels: all_below(alloc, channels)?,
            moved: Vec::with_capacity(alloc, channels as usize)?,
        })
    }

    /// The number of a channel.
    pub(crate) fn number(&self, channel: ChannelId) -> u32
        requires { channel.0 < length self.now }
        ensures { result ≡ slice_index self.now channel.0 }
    {
        self.numbers[channel.0 as usize]
    }

    /// Shares out anew the numbers from one to another: the channels that were not reached come first.
    pub(crate) fn move_behind(&mut self, low: u32, high: u32, reached: &[bool])
        requires low { low ≤ high }
        requires high { high < length self.old }
        requires reached { length reached.now ≡ length self.old }
        ensures moved { IsMovedBehind self.old self.new low high reached.now }
        ensures numbers { AreNumbers self.new }
    {
        let range = &mut self.channels[low as usize..high as usize + 1];
        unreached_first(range, reached, &mut self.moved);
        set_numbers(range, low, &mut self.numbers);
    }
}

/// The numbers below a count, ascending.
fn all_below(alloc: Global, count: u32) -> Result<Vec<u32>, AllocError>
    ensures { IfOk result (λ all. all.items ≡ range_with_len 0 count) }
{
    (0..count).collect(alloc)
}

/// Puts the channels that were reached behind the others.
fn unreached_first(channels: &mut [u32], reached: &[bool], moved: &mut Vec<u32>)
    requires known { All (λ c. c < length reached.now) channels.old }
    requires room { length channels.old ≤ vec_capacity moved.old }
    ensures parted { channels.new ≡ filter (is_unreached reached.now) channels.old ++ filter (is_reached reached.now) channels.old }
    ensures capacity { vec_capacity moved.new ≡ vec_capacity moved.old }
{
    moved.clear();
    let mut next = 0;
    for at in 0..channels.len() {
        let channel = channels[at];
        if reached[channel as usize] {
            moved.push_reserved(channel);
        } else {
            channels[next] = channel;
            next += 1;
        }
    }
    channels[next..].copy_from_slice(moved);
}

/// Gives channels numbers in their order, from one on.
fn set_numbers(channels: &[u32], first: u32, numbers: &mut [u32])
    requires known { All (λ c. c < length numbers.old) channels.now }
    requires differ { AllPairs (λ c d. c ≢ d) channels.now }
    requires fits { first + length channels.now ≤ 2 ^ 32 }
    ensures { AreNumberedFrom first channels.now numbers.old numbers.new }
{
    for (place, channel) in channels.iter().enumerate() {
        numbers[*channel as usize] = first + place as u32;
    }
}
