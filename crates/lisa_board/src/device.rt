// What one line of a board file gives.
use crate::parts::{Console, Timer};

// A device of a board.
#[derive(Clone, Copy)]
pub(crate) enum Device {
    Timer(Timer),
    Console(Console),
}
