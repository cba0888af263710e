//! The queues of a pipeline: which occurrences stand in which stages, and what an edge recorded, one bit each.
#![tactic(auto)]

mod columns;
mod kept;
mod laws;
mod makes;
mod placing;
mod queues;
mod restores;

pub use kept::Queues;
pub use laws::{due_is_due, enter_is_activate, finish_is_next_bit};
pub use placing::Placing;
pub use restores::{Shows, restore};
