// What may be wrong with a text of the subset.
ghost use Rattle.std.specs.Prelude.{◌≡◌};
ghost use Rattle.verilog_text.specs.declared.faults.VerilogFault.TheVariants.{NoMemory as OutOfMemory};

use lisa_words::{Name, NoMemory};
use std::alloc::{AllocError, AllocFailed};

/// The first fault of a text, by number, and inside a number by its place in the text.
#[derive(Debug, PartialEq, Eq, Drop)]
pub enum VerilogFault {
    /// 1: no token begins or goes on at this byte.
    BadByte { at: u32 },
    /// 2: more than 64 brackets are open at this token, the first such one.
    TooDeep { at: u32 },
    /// 3: no module of depth at most 128 spells the tokens; the place is at most the number of bytes.
    NotInSubset { at: u32 },
    /// 4: two declarations share this name.
    DuplicateName { name: Name },
    /// 5: no earlier declaration has this name.
    UsedBeforeDeclared { name: Name },
    /// 6: a name is used against its declaration.
    WrongUse { name: Name },
    /// 7: a `reg` has no first value, or two, or something else has one.
    NoInitial { name: Name },
    /// 8: an index isn't as wide as the array's depth needs.
    IndexWidth { name: Name, width: u32, needed: u32 },
    /// 9: a range or an expression is wider than 64 bits; the place is its first byte.
    TooWide { at: u32 },
    /// 10: a `reg` is assigned in two `always` blocks.
    TwoDrivers { name: Name },
    /// 11: a count exceeds its limit, or a depth isn't a power of two from 2 to 1,048,576.
    TooMany { what: Name, count: u64, limit: u64 },
    /// Memory was wanted and not given.
    NoMemory,
}

impl From<AllocError> for VerilogFault {
    ghost from_gives = { λ _ e. e ≡ OutOfMemory };

    fn from(_error: AllocError) -> VerilogFault {
        VerilogFault::NoMemory
    }
}

impl<T: Drop> From<AllocFailed<T>> for VerilogFault {
    ghost from_gives = { λ _ e. e ≡ OutOfMemory };

    fn from(_error: AllocFailed<T>) -> VerilogFault {
        VerilogFault::NoMemory
    }
}

impl From<NoMemory> for VerilogFault {
    ghost from_gives = { λ _ e. e ≡ OutOfMemory };

    fn from(_error: NoMemory) -> VerilogFault {
        VerilogFault::NoMemory
    }
}
