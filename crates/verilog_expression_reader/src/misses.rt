// Why nothing could be read.

ghost use Rattle.std.specs.Prelude.{◌≡◌};
ghost use Rattle.verilog_expression_reader.specs.declared.misses.Missed.TheVariants.{NoMemory as NoRoom};

use std::alloc::{AllocError, AllocFailed};

/// Why nothing could be read.
#[derive(Debug, Drop)]
pub enum Missed {
    /// What is wanted doesn't stand where so many tokens are left.
    At(usize),
    /// Memory was wanted and not given.
    NoMemory,
}

impl From<lisa_words::NoMemory> for Missed {
    ghost from_gives = { λ _ e. e ≡ NoRoom };

    fn from(_error: lisa_words::NoMemory) -> Missed {
        Missed::NoMemory
    }
}

impl From<AllocError> for Missed {
    ghost from_gives = { λ _ e. e ≡ NoRoom };

    fn from(_error: AllocError) -> Missed {
        Missed::NoMemory
    }
}

impl<T: Drop> From<AllocFailed<T>> for Missed {
    ghost from_gives = { λ _ e. e ≡ NoRoom };

    fn from(_error: AllocFailed<T>) -> Missed {
        Missed::NoMemory
    }
}
