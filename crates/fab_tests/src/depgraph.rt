//! Dependencies of three and four channels.
ghost use Rattle.std.specs.Prelude.{◌≡◌, ◌+◌, ◌<◌, ◌≤◌, length, IfOk};

mod random_calls;

use fab_depgraph::{Added, Dep, DepGraph, Layers, Mark, Steps};
use fab_model::ChannelId;
use std::alloc::{AllocError, Global};
use std::marker::Brand;
use std::process::Abort;
use std::sync::ledger::{Blank, Ledger};
use std::test::Fail;

// An arena with room for nine additions.
fn roomy(alloc: Global, channels: u32) -> Result<DepGraph, AllocError>
    ensures channels { IfOk result (λ graph. graph.channels ≡ channels) }
    ensures spare { IfOk result (λ graph. 9 ≤ graph.spare) }
{
    let mut graph = DepGraph::new(alloc, channels)?;
    graph.reserve(9)?;
    Ok(graph)
}

fn dep(first: u32, second: u32) -> Dep
    ensures first { result.first.0 ≡ first }
    ensures second { result.second.0 ≡ second }
{
    Dep {
        first: ChannelId(first),
        second: ChannelId(second),
    }
}

// Whether a dependency is added.
fn adds<L: Ledger>(graph: &mut DepGraph, first: u32, second: u32, steps: &mut Steps<L>) -> bool
    requires first { first < graph.old.channels }
    requires second { second < graph.old.channels }
    requires spare { 0 < graph.old.spare }
    ensures channels { graph.new.channels ≡ graph.old.channels }
    ensures spare { graph.old.spare ≤ graph.new.spare + 1 }
    ensures grows { length graph.old.listed ≤ length graph.new.listed }
{
    graph.add(dep(first, second), steps) == Added::Yes
}

// From channel 0 to 2, then back to 0, and again once the last step there is taken back.
fn go_round<L: Ledger>(rt: &impl Abort, alloc: Global, blank: Blank) -> Result<(), Fail>
    requires name { blank.name ≡ L.name }
    requires parts { blank.parts ≡ L.parts }
    requires some { 0 < blank.parts }
{
    let mut steps = Steps::<L>::new(blank);
    let mut graph = roomy(alloc, 3)?;
    assert!(rt; adds(&mut graph, 0, 1, &mut steps));
    let mark = graph.mark();
    assert_eq!(rt; mark, Mark(1));
    assert!(rt; adds(&mut graph, 1, 2, &mut steps));
    assert!(rt; !adds(&mut graph, 2, 0, &mut steps));
    graph.undo_to(mark, &mut steps);
    assert!(rt; adds(&mut graph, 2, 0, &mut steps));
    assert_eq!(rt; graph.count(dep(1, 2)), 0);
    Ok(())
}

#[test]
fn a_walk_closes_until_it_is_taken_back(rt: HostRuntime) -> Result<(), Fail> {
    go_round::<Brand>(&rt, rt.alloc(), Blank::new(1))
}

fn four_numbers(graph: &DepGraph) -> [u32; 4]
    requires { graph.now.channels ≡ 4 }
{
    [
        graph.number(ChannelId(0)),
        graph.number(ChannelId(1)),
        graph.number(ChannelId(2)),
        graph.number(ChannelId(3)),
    ]
}

// Down from channel 3 to 0, then from 0 to 3, and again once the two last ones are taken back.
fn go_down<L: Ledger>(rt: &impl Abort, alloc: Global, blank: Blank) -> Result<(), Fail>
    requires name { blank.name ≡ L.name }
    requires parts { blank.parts ≡ L.parts }
    requires some { 0 < blank.parts }
{
    let mut steps = Steps::<L>::new(blank);
    let mut graph = roomy(alloc, 4)?;
    assert!(rt; adds(&mut graph, 3, 2, &mut steps));
    let mark = graph.mark();
    assert!(rt; adds(&mut graph, 2, 1, &mut steps));
    assert!(rt; adds(&mut graph, 1, 0, &mut steps));
    let numbers = four_numbers(&graph);
    assert!(rt; numbers.is_sorted_by(|a, b| a > b));
    assert!(rt; !adds(&mut graph, 0, 3, &mut steps));
    assert_eq!(rt; four_numbers(&graph), numbers);
    graph.undo_to(mark, &mut steps);
    assert!(rt; adds(&mut graph, 0, 3, &mut steps));
    assert!(rt; graph.number(ChannelId(0)) < graph.number(ChannelId(3)));
    Ok(())
}

#[test]
fn numbers_rise(rt: HostRuntime) -> Result<(), Fail> {
    go_down::<Brand>(&rt, rt.alloc(), Blank::new(1))
}

// Added twice and taken back once, a dependency stands there once. A channel never waits for itself.
fn add_twice<L: Ledger>(rt: &impl Abort, alloc: Global, blank: Blank) -> Result<(), Fail>
    requires name { blank.name ≡ L.name }
    requires parts { blank.parts ≡ L.parts }
    requires some { 0 < blank.parts }
{
    let mut steps = Steps::<L>::new(blank);
    let mut layers = Layers::new(alloc, 3, 2)?;
    let graph = layers.lane_mut(1);
    graph.reserve(3)?;
    assert!(rt; !adds(graph, 1, 1, &mut steps));
    assert!(rt; adds(graph, 0, 1, &mut steps));
    let mark = graph.mark();
    assert!(rt; adds(graph, 0, 1, &mut steps));
    graph.undo_to(mark, &mut steps);
    assert_eq!(rt; graph.count(dep(0, 1)), 1);
    assert_eq!(rt; layers.lane(0).count(dep(0, 1)), 0);
    assert_eq!(rt; layers.lanes(), 2);
    Ok(())
}

#[test]
fn the_last_addition_is_taken_back(rt: HostRuntime) -> Result<(), Fail> {
    add_twice::<Brand>(&rt, rt.alloc(), Blank::new(1))
}
