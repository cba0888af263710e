//! A board with timers and a console beside any engine.
#![tactic(auto)]

mod board;
mod console;
mod device;
mod fault;
mod laws;
mod line;
mod parts;
mod reader;
mod run;
mod timers;

pub use board::Board;
pub use fault::BoardFault;
pub use laws::{boards_print_alike, entries_are_unique};
pub use parts::{Console, Timer};
pub use reader::read_board;
pub use run::run_board;
