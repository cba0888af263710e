//! The tasks of commands over any engine: the text of its state after some edges, the text of a trace, its value change dump, what
//! it prints on a board, and the answers of a session, each under a schedule or on a board that is read first; and the trace of a
//! value change dump.
//!
//! `specs/Tasks.antt` says what each task gives, and `specs/Replays.antt` what is given of a dump.
#![tactic(auto)]

mod boards;
mod images;
mod inputs;
mod making;
mod replays;
mod running;
mod scheduling;
mod sessions;
mod tasks;

pub use images::{image_of, memories};
pub use making::{do_made, unmade};
pub use replays::replay_waves;
pub use running::put_state;
pub use scheduling::{schedule_for, schedule_text};
pub use tasks::{Task, do_task};
