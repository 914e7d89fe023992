//! Cables laid at random, by the words of PCG32.
//!
//! Each switch but the first is joined to one of a smaller number by one word, and then each two words lay a cable
//! between two switches. A cable takes the least free port on each side. As ports are taken in order, the least free
//! one of each switch is kept as a number. Time: a step for each cable, and one for each full switch that is passed.
ghost use Rattle.std.specs.Prelude.{◌≡◌, ◌≢◌, [], ◌+◌, ◌%◌, ◌<◌, ◌≤◌, length, map, find, IfOk, OnOk};
ghost use Rattle.std.specs.List.{range_with_len};
ghost use Rattle.fab_report.specs.Cabling.{with_cable, joined, crossed, has_free_port, random_cables};

use crate::cables::cable;
use fab_model::ChannelRow;
use rand_core::SeedableRng;
use rand_core::utils::NextWord;
use rand_pcg::Lcg64Xsh32;
use std::alloc::{AllocError, Global};
use std::marker::Model;

/// The number past the last port of a switch: none is free.
const NO_PORT: u8 = 255;

/// Cables between switches of 254 ports, whose port 1 has a terminal.
#[derive(Drop)]
struct Laid {
    cables: Vec<ChannelRow>,
    // by switch the least free port, `NO_PORT` where there is none
    free_ports: Vec<u8>,
}

impl Model for Laid {
    ghost use Rattle.std.specs.Prelude.{length};
    ghost use Rattle.fab_report.specs.Laying.{LaidCables, AreLeastFree};

    ghost Value = { LaidCables };

    ghost view = { λ l. record { switches = length l.free_ports.items; cables = l.cables.items } };

    ghost invariant = { λ l. AreLeastFree l.cables.items l.free_ports.items };
}

impl Laid {
    /// No cable between so many switches.
    fn new(alloc: Global, switches: u32) -> Result<Laid, AllocError>
        ensures { IfOk result (λ laid. laid ≡ record { switches = switches; cables = [] }) }
    {
        Ok(Laid {
            cables: Vec::new(alloc),
            free_ports: vec![in alloc; 2; switches as usize]?,
        })
    }

    /// Whether a switch has a free port.
    fn has_free_port(&self, s: u32) -> bool
        requires { s < self.now.switches }
        ensures { result ≡ has_free_port self.now.cables s }
    {
        self.free_ports[s as usize] < NO_PORT
    }

    /// Lays a cable between two switches, unless one of them has no free port.
    fn lay(&mut self, s: u32, other: u32) -> Result<(), AllocError>
        requires switch { s < self.old.switches }
        requires other { other < self.old.switches }
        requires differ { s ≢ other }
        ensures { OnOk result (self.new ≡ record { switches = self.old.switches; cables = with_cable self.old.cables s other }) }
    {
        let port = self.free_ports[s as usize];
        let other_port = self.free_ports[other as usize];
        if port < NO_PORT && other_port < NO_PORT {
            self.cables.push(cable(s, port, other, other_port))?;
            self.free_ports[s as usize] = port + 1;
            self.free_ports[other as usize] = other_port + 1;
        }
        Ok(())
    }

    /// The first switch with a free port, of those of smaller numbers than this one, from the word's on and round.
    fn first_free(&self, s: u32, word: u32) -> Option<u32>
        requires some { 0 < s }
        requires switch { s < self.now.switches }
        requires few { self.now.switches ≤ 512 }
        ensures { result ≡ find (has_free_port self.now.cables) (map (λ k. (word % s + k) % s) (range_with_len 0 s)) }
    {
        for k in 0..s {
            let other = (word % s + k) % s;
            if self.has_free_port(other) {
                return Some(other);
            }
        }
        None
    }

    /// Joins a switch to one of a smaller number, by a word.
    fn join(&mut self, s: u32, word: u32) -> Result<(), AllocError>
        requires some { 0 < s }
        requires switch { s < self.old.switches }
        requires few { self.old.switches ≤ 512 }
        ensures { OnOk result (self.new ≡ record { switches = self.old.switches; cables = joined self.old.cables (s, word) }) }
    {
        match self.first_free(s, word) {
            Some(other) => self.lay(s, other),
            None => Ok(()),
        }
    }

    /// Lays a cable between the switches of two words, unless they are the same.
    fn cross(&mut self, switches: u32, first: u32, second: u32) -> Result<(), AllocError>
        requires some { 0 < switches }
        requires switches { switches ≡ self.old.switches }
        ensures { OnOk result (self.new ≡ record { switches = self.old.switches; cables = crossed switches self.old.cables (first, second) }) }
    {
        let s = first % switches;
        let other = second % switches;
        if s == other {
            return Ok(());
        }
        self.lay(s, other)
    }
}

/// The cables between so many switches, with so many pairs of words more, by the words of a seed.
pub(crate) fn random_cables(
    alloc: Global,
    switches: u32,
    more: u32,
    seed: u64,
) -> Result<Vec<ChannelRow>, AllocError>
    requires some { 0 < switches }
    requires few { switches ≤ 512 }
    ensures { IfOk result (λ rows. rows.items ≡ random_cables switches more seed) }
{
    let mut words = Lcg64Xsh32::seed_from_u64(seed);
    let mut laid = Laid::new(alloc, switches)?;
    for s in 1..switches {
        laid.join(s, words.next_word())?;
    }
    for _ in 0..more {
        let first = words.next_word();
        let second = words.next_word();
        laid.cross(switches, first, second)?;
    }
    let Laid {
        cables,
        free_ports: _,
    } = laid;
    Ok(cables)
}
