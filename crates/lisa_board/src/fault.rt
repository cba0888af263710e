// Why a board isn't read.
ghost use Rattle.std.specs.Prelude.{◌≡◌};

use lisa_words::{Name, NoMemory};
use std::alloc::{AllocError, AllocFailed};

/// Why a board wasn't read. Lines are counted from 1. The first line with a fault counts, then the fault that comes first here, then the first name in
/// the line.
#[derive(Debug, Drop)]
pub enum BoardFault {
    /// The line is no `timer LOAD PIN` and no `console DATA STROBE BYTE VALID TAKEN`, with single blanks.
    BadLine { line: u32 },
    /// No item has this name.
    UnknownItem { line: u32, name: Name },
    /// No pin has this name.
    UnknownPin { line: u32, name: Name },
    /// An earlier place of the file drives this pin.
    PinTaken { line: u32, name: Name },
    /// This pin is for a byte, and has fewer than 8 bits.
    PinWidth { line: u32, name: Name, width: u64 },
    /// More of these devices, `timer` or `console`, than a board has.
    TooMany { line: u32, what: Name, limit: u64 },
    /// Memory was wanted and not given.
    NoMemory,
}

impl From<AllocError> for BoardFault {
    ghost use Rattle.lisa_board.specs.declared.fault.BoardFault.TheVariants.{NoMemory};

    ghost from_gives = { λ _ fault. fault ≡ NoMemory };

    fn from(_error: AllocError) -> BoardFault {
        BoardFault::NoMemory
    }
}

impl<T: Drop> From<AllocFailed<T>> for BoardFault {
    ghost use Rattle.lisa_board.specs.declared.fault.BoardFault.TheVariants.{NoMemory};

    ghost from_gives = { λ _ fault. fault ≡ NoMemory };

    fn from(_error: AllocFailed<T>) -> BoardFault {
        BoardFault::NoMemory
    }
}

impl From<NoMemory> for BoardFault {
    ghost use Rattle.lisa_board.specs.declared.fault.BoardFault.TheVariants.{NoMemory};

    ghost from_gives = { λ _ fault. fault ≡ NoMemory };

    fn from(_error: NoMemory) -> BoardFault {
        BoardFault::NoMemory
    }
}
