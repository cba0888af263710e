//! What is wrong with a list of objects.
#![tactic(auto)]

mod faults;
mod globals;
mod names;
mod rooms;
mod sections;
mod undefined;
mod uses;
mod widths;

pub use faults::fault_before_values;
pub use globals::{all_exported, double_export};
pub use names::{own_names, shared_names};
pub use rooms::{count_of, first_overfull, line_enters, line_size};
pub use sections::first_unknown;
pub use uses::first_undefined;
