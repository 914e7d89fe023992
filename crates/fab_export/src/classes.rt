//! Classes of sources: those of a class have the same level, or none, at every LID.
//!
//! Problem: sources for which the same rules hold are told once. Definition: `least_sources` and `class_of` in
//! specs/Classes.antt. The levels of each source are looked up among those of the classes before it, in a map from
//! levels to the class's number; where they are new, the source is the least of the next class. Time: a step for each
//! source and LID. Memory: two bytes for each class and LID.
ghost use Rattle.std.specs.Prelude.{◌≡◌, ◌+◌, ◌<◌, length, slice_index, slice_index_or, None, IsTrue, IfOk};
ghost use Rattle.fab_model.specs.Topology.{is_source};
ghost use Rattle.fab_tables.specs.Fit.{LanesFit};
ghost use Rattle.fab_export.specs.ClassNumbers.{AreClasses, IsNumber, IsNumberOf};
ghost use Rattle.fab_export.specs.Numberings.{least_of, IsNumberingOf, KeepNumbers};

use crate::reached::Reached;
use crate::source_levels::levels_of_source;
use fab_model::SwitchId;
use fab_tables::Lanes;
use std::alloc::{AllocError, Global};
use std::collections::HashMap;
use std::marker::Model;

/// The classes of sources, numbered from 0 by their least source. They are seen as these sources and, for each switch,
/// the number of its class, none where the switch is no source.
#[derive(Drop)]
pub(crate) struct Classes {
    least: Vec<SwitchId>,
    numbers: Vec<Option<usize>>,
}

impl Model for Classes {
    ghost use Rattle.std.specs.Prelude.{map};
    ghost use Rattle.fab_model.specs.declared.rows.SwitchId.{SwitchId};
    ghost use Rattle.fab_export.specs.ClassNumbers.{ClassNumbers};

    ghost Value = { ClassNumbers };

    ghost view = { λ c. record { least = map (λ (s : SwitchId). s.0) c.least.items; numbers = c.numbers.items } };
}

/// The least source of each class so far, and the number of the class with these levels.
#[derive(Drop)]
struct Numbering {
    least: Vec<SwitchId>,
    by_levels: HashMap<Vec<Option<u8>>, usize>,
}

impl Numbering {
    /// The number of a source's class: a new one where no source so far has its levels.
    fn number(
        &mut self,
        alloc: Global,
        reached: &Reached,
        lanes: &Lanes,
        source: SwitchId,
    ) -> Result<usize, AllocError>
        requires lanes { LanesFit reached.now.fabric lanes.now }
        requires switch { source.0 < length reached.now.fabric.switches }
        requires source { IsTrue (is_source reached.now.fabric source.0) }
        requires so_far { IsNumberingOf reached.now.fabric reached.now.entries lanes.now source.0 self.old }
        ensures then { IfOk result (λ _. IsNumberingOf reached.now.fabric reached.now.entries lanes.now (source.0 + 1) self.new) }
        ensures number { IfOk result (IsNumber reached.now.fabric reached.now.entries lanes.now (least_of self.new) source.0) }
        ensures kept { IfOk result (λ _. KeepNumbers reached.now.fabric reached.now.entries lanes.now self.old self.new) }
    {
        let levels = levels_of_source(alloc, reached, lanes, source)?;
        if let Some(number) = self.by_levels.get(&levels) {
            return Ok(*number);
        }
        let number = self.least.len();
        self.by_levels.insert(levels, number)?;
        self.least.push(source)?;
        Ok(number)
    }

    /// The number of a switch's class, if it is a source.
    fn number_of(
        &mut self,
        alloc: Global,
        reached: &Reached,
        lanes: &Lanes,
        switch: SwitchId,
    ) -> Result<Option<usize>, AllocError>
        requires lanes { LanesFit reached.now.fabric lanes.now }
        requires switch { switch.0 < length reached.now.fabric.switches }
        requires so_far { IsNumberingOf reached.now.fabric reached.now.entries lanes.now switch.0 self.old }
        ensures then { IfOk result (λ _. IsNumberingOf reached.now.fabric reached.now.entries lanes.now (switch.0 + 1) self.new) }
        ensures number { IfOk result (IsNumberOf reached.now.fabric reached.now.entries lanes.now (least_of self.new) switch.0) }
        ensures kept { IfOk result (λ _. KeepNumbers reached.now.fabric reached.now.entries lanes.now self.old self.new) }
    {
        if !reached.fabric().has_terminal(switch) {
            return Ok(None);
        }
        let number = self.number(alloc, reached, lanes, switch)?;
        Ok(Some(number))
    }
}

impl Classes {
    /// The classes of a plan's sources. The error is want of memory.
    pub(crate) fn new(
        alloc: Global,
        reached: &Reached,
        lanes: &Lanes,
    ) -> Result<Classes, AllocError>
        requires { LanesFit reached.now.fabric lanes.now }
        ensures { IfOk result (AreClasses reached.now.fabric reached.now.entries lanes.now) }
    {
        let mut numbering = Numbering {
            least: Vec::new(alloc),
            by_levels: HashMap::new(alloc),
        };
        let mut numbers = Vec::new(alloc);
        for switch in 0..reached.fabric().switches() {
            numbers.push(numbering.number_of(alloc, reached, lanes, SwitchId(switch))?)?;
        }
        Ok(Classes {
            least: numbering.least,
            numbers,
        })
    }

    /// How many classes there are.
    pub(crate) fn count(&self) -> usize
        ensures { result ≡ length self.now.least }
    {
        self.least.len()
    }

    /// The least source of a class.
    pub(crate) fn least_source(&self, class: usize) -> SwitchId
        requires { class < length self.now.least }
        ensures { result.0 ≡ slice_index self.now.least class }
    {
        self.least[class]
    }

    /// The number of a switch's class; none where the switch is no source.
    pub(crate) fn number_of(&self, switch: SwitchId) -> Option<usize>
        requires { switch.0 < length self.now.numbers }
        ensures { result ≡ slice_index_or self.now.numbers switch.0 None }
    {
        self.numbers[switch.0 as usize]
    }
}
