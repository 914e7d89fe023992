//! Reports on plans, and fabrics made from recipes.
#![tactic(auto)]

mod cables;
mod ends;
mod laws;
mod lines;
mod loads;
mod nodes;
mod order;
mod random;
mod recipe;
mod rows;
mod shown;

pub use laws::{generated_has_no_own_cable, generated_is_fabric, hops_are_few, load_is_small};
pub use lines::Lines;
pub use loads::{Loads, load};
pub use recipe::{Kind, Recipe, generate};
pub use rows::{SummaryRow, summary};
pub use shown::{Shown, show};
