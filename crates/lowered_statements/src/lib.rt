//! What statements of behaviours become in a step program, and laws on what their steps do.
#![tactic(auto)]

pub mod laws;
mod local_temps;
mod pieces;
mod scenes;
mod scopes;
mod statements;
mod wholes;

pub use local_temps::LocalTemp;
pub use scenes::{Callee, Lowers};
pub use scopes::{Entry, Locals};
pub use statements::{state_all, state_scene};
pub use wholes::Given;
