//! The components of a fabric: which switches are connected. A search from each switch that has no component yet
//! takes linear time in the channels, and 8 bytes for each switch.
ghost use Rattle.std.specs.Prelude.{◌≡◌, ◌↔◌, ◌<◌, ◌+◌, [], ◌∷◌, ◌++◌, IfOk, OnOk, IsTrue, length, count_by, is_none, None, Some};
ghost use Rattle.fab_model.specs.Connected.{AreConnected};
ghost use Rattle.fab_model.specs.WellFormed.{IsFabric};
ghost use Rattle.fab_tables.specs.Components.{AreComponents, component_of};
ghost use Rattle.fab_tables.specs.Searching.{IsSearching, HasSearched, KeepsNumbers};

use fab_model::{ChannelId, Fabric, SwitchId};
use std::alloc::{AllocError, Global};
use std::marker::Model;

/// Which switches of a fabric are connected. It is seen as the fabric.
#[derive(Drop)]
pub struct Components<'f> {
    fabric: &'f Fabric,
    // a number for each switch, the same one for two switches exactly where they are connected
    numbers: Vec<Option<u32>>,
}

impl<'f> Model for Components<'f> {
    ghost use Rattle.fab_model.specs.Topology.{Topology};
    ghost use Rattle.fab_tables.specs.Components.{AreComponents};

    ghost Value = { Topology };

    ghost view = { λ c. c.fabric.now };

    ghost invariant = { λ c. AreComponents c.fabric.now c.numbers.items };
}

impl<'f> Components<'f> {
    /// The components of a fabric, found by a search along its channels.
    pub fn of(alloc: Global, fabric: &'f Fabric) -> Result<Components<'f>, AllocError>
        ensures { IfOk result (λ c. c ≡ fabric.now) }
    {
        let numbers = number_components(alloc, fabric)?;
        Ok(Components { fabric, numbers })
    }

    /// Whether a walk of channels joins two switches.
    pub fn are_connected(&self, a: SwitchId, b: SwitchId) -> bool
        requires first { a.0 < length self.now.switches }
        requires second { b.0 < length self.now.switches }
        ensures { IsTrue result ↔ AreConnected self.now a.0 b.0 }
    {
        self.numbers[a.0 as usize] == self.numbers[b.0 as usize]
    }
}

/// A number for each switch: two switches have the same one exactly where they are connected.
fn number_components(alloc: Global, fabric: &Fabric) -> Result<Vec<Option<u32>>, AllocError>
    ensures { IfOk result (λ numbers. AreComponents fabric.now numbers.items) }
{
    let count = fabric.switches();
    let mut numbers = vec![in alloc; None; count as usize]?;
    for start in 0..count {
        if numbers[start as usize].is_none() {
            number_component(alloc, fabric, SwitchId(start), &mut numbers)?;
        }
    }
    Ok(numbers)
}

/// Gives the number of this switch to all that are connected to it.
fn number_component(
    alloc: Global,
    fabric: &Fabric,
    start: SwitchId,
    numbers: &mut [Option<u32>],
) -> Result<(), AllocError>
    requires fabric { IsFabric fabric.now }
    requires switch { start.0 < length fabric.now.switches }
    requires before { HasSearched fabric.now numbers.old }
    requires none { component_of numbers.old start.0 ≡ None }
    ensures searched { OnOk result (HasSearched fabric.now numbers.new) }
    ensures begun { OnOk result (component_of numbers.new start.0 ≡ Some start.0) }
    ensures kept { OnOk result (KeepsNumbers numbers.old numbers.new) }
{
    numbers[start.0 as usize] = Some(start.0);
    let mut pending = vec![in alloc; start]?;
    while let Some(switch) = pending.pop() {
        number_tips(fabric, switch, start.0, numbers, &mut pending)?;
    }
    Ok(())
}

/// Gives this number to the tips of a switch's channels, and makes those pending that had none.
fn number_tips(
    fabric: &Fabric,
    switch: SwitchId,
    number: u32,
    numbers: &mut [Option<u32>],
    pending: &mut Vec<SwitchId>,
) -> Result<(), AllocError>
    requires fabric { IsFabric fabric.now }
    requires searching { IsSearching fabric.now number numbers.old (pending.old.items ++ switch ∷ []) }
    ensures searched { OnOk result (IsSearching fabric.now number numbers.new pending.new.items) }
    ensures fewer { OnOk result (count_by is_none numbers.new + length pending.new.items ≡ count_by is_none numbers.old + length pending.old.items) }
    ensures kept { KeepsNumbers numbers.old numbers.new }
{
    let (first, past) = fabric.leaves(switch);
    for channel in first..past {
        let tip = fabric.tip(ChannelId(channel));
        if numbers[tip.0 as usize].is_none() {
            numbers[tip.0 as usize] = Some(number);
            pending.push(tip)?;
        }
    }
    Ok(())
}
