//! Step programs whose states are worked out by hand, and their modules.
#![tactic(auto)]

mod modules;
mod naming;
mod parts;
mod samples;

pub use modules::{clocked, is_buildable, read_back, written};
pub use naming::named_apart;
pub use samples::{
    Lines, double_sum, guarded_writes, long_chain, mixed_steps, narrow_and_wide, printable_bytes,
    printable_names, swap, through_a_cell,
};
