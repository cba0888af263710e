// Why bytes are refused.
ghost use Rattle.std.specs.Prelude.{◌≡◌};
ghost use Rattle.hex_files.specs.declared.faults.HexFault.TheVariants as hex;
ghost use Rattle.hex_files.specs.declared.faults.MemhFault.TheVariants as memh;

use lisa_words::{Name, NoMemory};
use std::alloc::{AllocError, AllocFailed};

/// Why an Intel HEX file is refused. Lines count from 1.
#[derive(Debug, Drop)]
pub enum HexFault {
    /// The description has no memory of this name. No reader of this crate answers it.
    NoSuchMemory { name: Name },
    /// The line is no record.
    BadRecord { line: u32 },
    /// The last byte of the line isn't the two's complement of the sum of the others.
    BadSum { line: u32, kept: u8, expected: u8 },
    /// No record has this type.
    RecordType { line: u32, kind: u8 },
    /// The line isn't empty, and follows the end record.
    AfterEnd { line: u32 },
    /// A byte is for an address from which on the memory has no bytes.
    PastEnd { line: u32, address: u64, bytes: u64 },
    /// There is no end record.
    NoEnd,
    /// A cell's value doesn't fit the width.
    CellRange { index: u64, value: u64, width: u64 },
    /// Memory was wanted and not given.
    NoMemory,
}

/// Why a `$readmemh` file is refused.
#[derive(Debug, Drop)]
pub enum MemhFault {
    /// The description has no memory of this name. No reader of this crate answers it.
    NoSuchMemory { name: Name },
    /// No word stands at this byte, or its digits write 2^64 or more.
    BadWord { at: u32 },
    /// A word's value doesn't fit the width.
    CellRange { index: u64, value: u64, width: u64 },
    /// A word is for a cell that the memory doesn't have.
    PastEnd { index: u64, depth: u64 },
    /// Memory was wanted and not given.
    NoMemory,
}

impl From<AllocError> for HexFault {
    ghost from_gives = { λ _ fault. fault ≡ hex.NoMemory };

    fn from(_error: AllocError) -> HexFault {
        HexFault::NoMemory
    }
}

impl<T: Drop> From<AllocFailed<T>> for HexFault {
    ghost from_gives = { λ _ fault. fault ≡ hex.NoMemory };

    fn from(_error: AllocFailed<T>) -> HexFault {
        HexFault::NoMemory
    }
}

impl From<AllocError> for MemhFault {
    ghost from_gives = { λ _ fault. fault ≡ memh.NoMemory };

    fn from(_error: AllocError) -> MemhFault {
        MemhFault::NoMemory
    }
}

impl<T: Drop> From<AllocFailed<T>> for MemhFault {
    ghost from_gives = { λ _ fault. fault ≡ memh.NoMemory };

    fn from(_error: AllocFailed<T>) -> MemhFault {
        MemhFault::NoMemory
    }
}

impl From<NoMemory> for MemhFault {
    ghost from_gives = { λ _ fault. fault ≡ memh.NoMemory };

    fn from(_error: NoMemory) -> MemhFault {
        MemhFault::NoMemory
    }
}

impl From<NoMemory> for HexFault {
    ghost from_gives = { λ _ fault. fault ≡ hex.NoMemory };

    fn from(_error: NoMemory) -> HexFault {
        HexFault::NoMemory
    }
}
