//! Behaviours whose names are resolved to places, and what they do to a store of registers, pins, arrays, locals and
//! fields of boundaries. Nothing here knows descriptions, and once a store is made nothing takes memory.
#![tactic(auto)]

mod acts;
mod laws;
mod making;
mod operands;
mod running;
mod spots;
mod store;
mod terms;
mod values;
mod writing;

pub use acts::{Act, Loop};
pub use laws::runs_keep_types;
pub use running::{run, run_all};
pub use spots::Spot;
pub use store::Store;
pub use terms::Term;
pub use values::evaluate;
