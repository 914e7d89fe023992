//! Random calls, whose answers are compared with a plain list that is searched from scratch.
ghost use Rattle.std.specs.Prelude.{◌≡◌, ◌+◌, ◌<◌, ◌≤◌, length};

use fab_depgraph::{Added, Dep, DepGraph, Mark, Steps};
use fab_model::ChannelId;
use rand_core::SeedableRng;
use rand_core::utils::NextWord;
use rand_pcg::Lcg64Xsh32;
use std::alloc::Global;
use std::marker::Brand;
use std::process::Abort;
use std::sync::ledger::{Blank, Ledger};
use std::test::Fail;

const CHANNELS: u32 = 12;

// A set with one channel, as a bit.
fn only(channel: ChannelId) -> u32 {
    1u32.checked_shl(channel.0).unwrap_or(0)
}

// Whether a walk leads from the second channel to the first.
fn would_close(listed: &[Dep], dep: Dep) -> bool {
    let mut reached = only(dep.second);
    for _ in 0..CHANNELS {
        for next in listed {
            if reached & only(next.first) > 0 {
                reached |= only(next.second);
            }
        }
    }
    reached & only(dep.first) > 0
}

fn times(listed: &[Dep], dep: Dep) -> usize {
    listed.iter().filter(|other| **other == dep).count()
}

fn any_dep(words: &mut Lcg64Xsh32) -> Dep
    ensures first { result.first.0 < 12 }
    ensures second { result.second.0 < 12 }
{
    let first = ChannelId(words.next_word() % CHANNELS);
    let second = ChannelId(words.next_word() % CHANNELS);
    Dep { first, second }
}

// Adds a dependency to the arena, and where that takes it, to the list.
fn add_to_both<L: Ledger>(
    rt: &impl Abort,
    graph: &mut DepGraph,
    listed: &mut Vec<Dep>,
    dep: Dep,
    steps: &mut Steps<L>,
) -> Result<(), Fail>
    requires channels { graph.old.channels ≡ 12 }
    requires first { dep.first.0 < 12 }
    requires second { dep.second.0 < 12 }
    ensures { graph.new.channels ≡ 12 }
{
    assert!(rt; graph.mark().0 < 10_000);
    graph.reserve(1)?;
    let added = graph.add(dep, steps);
    assert_eq!(rt; added == Added::WouldClose, would_close(listed, dep));
    if added == Added::Yes {
        listed.push(dep)?;
    }
    Ok(())
}

// Cuts the arena and the list back to a length, where they are longer, and compares all counts.
fn cut_both<L: Ledger>(
    rt: &impl Abort,
    graph: &mut DepGraph,
    listed: &mut Vec<Dep>,
    length: u32,
    steps: &mut Steps<L>,
)
    ensures { graph.new.channels ≡ graph.old.channels }
{
    if length < graph.mark().0 {
        graph.undo_to(Mark(length), steps);
        listed.truncate(length as usize);
    }
    for first in 0..CHANNELS {
        for second in 0..CHANNELS {
            let dep = Dep {
                first: ChannelId(first),
                second: ChannelId(second),
            };
            assert_eq!(rt; graph.count(dep) as usize, times(listed, dep));
        }
    }
}

fn call_at_random<L: Ledger>(rt: &impl Abort, alloc: Global, blank: Blank) -> Result<(), Fail>
    requires name { blank.name ≡ L.name }
    requires parts { blank.parts ≡ L.parts }
    requires some { 0 < blank.parts }
{
    let mut steps = Steps::<L>::new(blank);
    let mut words = Lcg64Xsh32::seed_from_u64(1);
    let mut graph = DepGraph::new(alloc, CHANNELS)?;
    let mut listed = Vec::new(alloc);
    for _ in 0..2_000 {
        let dep = any_dep(&mut words);
        let word = words.next_word();
        if word % 16 > 0 {
            add_to_both(rt, &mut graph, &mut listed, dep, &mut steps)?;
        } else {
            cut_both(rt, &mut graph, &mut listed, word / 16 % 64, &mut steps);
        }
        assert_eq!(rt; graph.mark().0 as usize, listed.len());
        assert_eq!(rt; graph.count(dep) as usize, times(&listed, dep));
    }
    Ok(())
}

#[test]
fn random_calls_answer_as_a_list_does(rt: HostRuntime) -> Result<(), Fail> {
    call_at_random::<Brand>(&rt, rt.alloc(), Blank::new(1))
}
