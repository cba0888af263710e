//! What runs of the program have to do with each other.
//!
//! `specs/Agreements.antt` and `specs/Refused.antt` say what holds.
#![tactic(auto)]

mod laws;
mod refusals;

pub use laws::runs_print_alike;
pub use refusals::runs_refuse_first_faults;
