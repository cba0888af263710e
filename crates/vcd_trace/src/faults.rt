// What may be wrong with a dump.
ghost use Rattle.std.specs.Prelude.{◌≡◌};
ghost use Rattle.vcd_trace.specs.declared.faults.VcdFault.TheVariants.{NoMemory as OutOfMemory};

use lisa_words::{Name, NoMemory};
use std::alloc::{AllocError, AllocFailed};

/// The first fault of a dump, by number, and inside a number by its place. The place of a time or a change is its first word's.
#[derive(Debug, PartialEq, Eq, Drop)]
pub enum VcdFault {
    /// 1: the bytes aren't of the form of a dump; the place is at most their number.
    BadToken { at: u32 },
    /// 2: a change names a code that no variable has.
    UnknownCode { at: u32 },
    /// 3: a width isn't from 1 to 64, or differs from that of an earlier variable with its code.
    BadWidth { name: Name, width: u64 },
    /// 4: a time isn't above the one before.
    NotRising { at: u32 },
    /// 5: a value has more digits than its variable's width, without the zeros that lead.
    ValueWidth { at: u32 },
    /// 6: a variable has no value at the first time, or there is no time at all.
    NoFirst { name: Name },
    /// 7: there are more than 8,192 `items`, or more than 10,001 `times`.
    TooMany { what: Name, count: u64, limit: u64 },
    /// Memory was wanted and not given.
    NoMemory,
}

impl From<AllocError> for VcdFault {
    ghost from_gives = { λ _ e. e ≡ OutOfMemory };

    fn from(_error: AllocError) -> VcdFault {
        VcdFault::NoMemory
    }
}

impl<T: Drop> From<AllocFailed<T>> for VcdFault {
    ghost from_gives = { λ _ e. e ≡ OutOfMemory };

    fn from(_error: AllocFailed<T>) -> VcdFault {
        VcdFault::NoMemory
    }
}

impl From<NoMemory> for VcdFault {
    ghost from_gives = { λ _ e. e ≡ OutOfMemory };

    fn from(_error: NoMemory) -> VcdFault {
        VcdFault::NoMemory
    }
}
