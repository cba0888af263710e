//! Sets and tables of the names that a file chooses. They stand in an order, so that no choice of names makes them slow.
#![tactic(auto)]

mod named_values;
mod sets;
mod tables;

pub use named_values::NamedValues;
pub use sets::NameSet;
pub use tables::{note_value, put_name, put_value};
