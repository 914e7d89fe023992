//! Fabrics made from recipes: rings, tori, trees of two levels, and cables laid at random.
//!
//! Definition: `generated` in `specs/Recipes.antt`, with the cables of `specs/Cabling.antt`. The torus is Dally and
//! Seitz's k-ary n-cube with two dimensions of their own sizes; the words of a random fabric are those of PCG32.
//! Time: sorting the channels, and what `Fabric::of_rows` takes; memory in the rows.
ghost use Rattle.std.specs.Prelude.{◌≡◌, ◌+◌, ◌*◌, IfOk, IsTrue};
ghost use Rattle.fab_model.specs.Topology.{HasNoOwnCable};
ghost use Rattle.fab_model.specs.Written.{MakesItself};
ghost use Rattle.fab_report.specs.Recipes.{fits, generated, cables as cabled};

use crate::cables::{channels_of, ring_cables, torus_cables, tree_cables};
use crate::nodes::{adapter_rows, switch_rows, terminal_rows};
use crate::random::random_cables;
use fab_model::{ChannelRow, Fabric};
use std::alloc::{AllocError, Global};

/// The shape of a generated fabric.
#[derive(Clone, Copy, Debug, PartialEq, Eq)]
pub enum Kind {
    /// A ring of `a` switches with `b` terminals each.
    Ring,
    /// A torus of `a` by `b` switches with a terminal each.
    Torus,
    /// A tree of `a` leaf switches with `b` terminals each, under `b` top switches.
    Tree,
    /// `a` switches with a terminal each, joined at random, and `b` more cables tried.
    Random,
}

/// What a fabric is generated from. The seed is used by `Random` alone.
#[derive(Clone, Copy, Debug, PartialEq, Eq)]
pub struct Recipe {
    /// The shape, which says what the two numbers count.
    pub kind: Kind,
    /// Switches of a ring or a random fabric, columns of a torus, leaf switches of a tree.
    pub a: u32,
    /// Terminals of each switch of a ring, rows of a torus, top switches of a tree and terminals of each leaf switch,
    /// pairs of words that may lay a further cable of a random fabric.
    pub b: u32,
    /// What the words that lay random cables are drawn from.
    pub seed: u64,
}

impl Recipe {
    /// Whether the numbers are in the ranges of the kind.
    pub fn fits(&self) -> bool
        ensures { result ≡ fits self.now }
    {
        let a = u64::from(self.a);
        let b = u64::from(self.b);
        match self.kind {
            Kind::Ring => 3 <= a && a <= 512 && b <= 252 && a + a * b <= 4096,
            Kind::Torus => 3 <= a && 3 <= b && a * b <= 512 && 2 * (a * b) <= 4096,
            Kind::Tree => {
                1 <= a && a <= 254 && 1 <= b && b <= 127 && a + b <= 512 && a + b + a * b <= 4096
            }
            Kind::Random => 1 <= a && a <= 512 && b <= 4096 && 2 * a <= 4096,
        }
    }
}

/// The fabric of a recipe. The error is want of memory.
pub fn generate(alloc: Global, recipe: &Recipe) -> Result<Fabric, AllocError>
    requires { IsTrue (fits recipe.now) }
    ensures rows { IfOk result (λ fabric. fabric ≡ generated recipe.now) }
    // Its rows, written out as raw records, make it again.
    ensures itself { IfOk result MakesItself }
    // No cable leads from a switch to itself.
    ensures no_own_cable { IfOk result HasNoOwnCable }
{
    let switches = switch_rows(alloc, recipe)?;
    let terminals = terminal_rows(alloc, recipe)?;
    let adapters = adapter_rows(alloc, terminals.len() as u32)?;
    let cables = cables_of(alloc, recipe)?;
    let channels = channels_of(alloc, &cables)?;
    Fabric::of_rows(alloc, switches, adapters, channels, terminals)
}

/// The cables of a recipe, each as the channel one way.
fn cables_of(alloc: Global, recipe: &Recipe) -> Result<Vec<ChannelRow>, AllocError>
    requires { IsTrue (fits recipe.now) }
    ensures { IfOk result (λ rows. rows.items ≡ cabled recipe.now.kind recipe.now.a recipe.now.b recipe.now.seed) }
{
    match recipe.kind {
        Kind::Ring => ring_cables(alloc, recipe.a),
        Kind::Torus => torus_cables(alloc, recipe.a, recipe.b),
        Kind::Tree => tree_cables(alloc, recipe.a, recipe.b),
        Kind::Random => random_cables(alloc, recipe.a, recipe.b, recipe.seed),
    }
}
