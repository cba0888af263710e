//! The commands on a description: its canonical text, whether it is accepted and how much there is of it, its state after some edges, a trace or a value change dump of them, what its stages did in them, what it prints on a board, and a session of the debugger over it.
//!
//! `specs/Formats.antt` says what `fmt` gives, `specs/Checks.antt` what `check` gives, `specs/Runs.antt` what each task gives, and `specs/Occupancies.antt` what `occupancy` gives.
#![tactic(auto)]

mod checks;
mod counts;
mod occupancy;
mod printing;
mod running;

pub use checks::check_description;
pub use lisa_sim::{Simulator, sizes_are_limited};
pub use occupancy::count_stages;
pub use printing::format_description;
pub use running::do_with_description;
