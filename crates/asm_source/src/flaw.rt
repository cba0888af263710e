// Why bytes are no source.
ghost use Rattle.std.specs.Prelude.{◌≡◌};
ghost use Rattle.asm_source.specs.declared.flaw.Flaw.{Flaw};
ghost use Rattle.asm_source.specs.declared.flaw.Flaw.TheVariants.{NoMemory};
ghost use Rattle.asm_source.specs.declared.flaw.SourceFault.TheVariants as faults;
ghost use Rattle.asm_source.specs.Source.{fault_at};

use lisa_words::Name;
use std::alloc::{AllocError, AllocFailed};

/// Why a source is refused.
#[derive(Debug, PartialEq, Eq, Drop)]
pub enum SourceFault {
    /// The line isn't of the form.
    BadLine {
        line: u32,
    },
    /// A word that begins with `.` is no directive.
    UnknownDirective {
        line: u32,
    },
    /// What follows an `@` is no operand.
    BadExpression {
        line: u32,
    },
    /// A label, cell or space stands before any section.
    NoSection {
        line: u32,
    },
    /// A section's name is no memory's.
    UnknownMemory {
        line: u32,
        name: Name,
    },
    /// An instruction stands where no instruction can.
    NotProgram {
        line: u32,
    },
    /// The text is no instruction's.
    NoInstruction {
        line: u32,
    },
    /// The text is that of two instructions.
    TwoInstructions {
        line: u32,
        first: Name,
        second: Name,
    },
    /// A name is defined twice in the source.
    DuplicateLabel {
        line: u32,
        name: Name,
    },
    /// A number doesn't fit its cell.
    FieldRange {
        line: u32,
        value: i128,
        width: u32,
    },
    /// Memory ran out.
    NoMemory,
}

/// What is wrong with a line, or want of memory.
#[derive(Clone, Copy, Debug, PartialEq, Eq)]
pub enum Flaw {
    BadLine,
    UnknownDirective,
    BadExpression,
    NoMemory,
}

impl From<AllocError> for Flaw {
    ghost from_gives = { λ _ e. e ≡ NoMemory };

    fn from(_error: AllocError) -> Flaw {
        Flaw::NoMemory
    }
}

impl<T: Drop> From<AllocFailed<T>> for Flaw {
    ghost from_gives = { λ _ e. e ≡ NoMemory };

    fn from(_error: AllocFailed<T>) -> Flaw {
        Flaw::NoMemory
    }
}

impl From<lisa_words::NoMemory> for Flaw {
    ghost from_gives = { λ _ e. e ≡ NoMemory };

    fn from(_error: lisa_words::NoMemory) -> Flaw {
        Flaw::NoMemory
    }
}

impl From<AllocError> for SourceFault {
    ghost from_gives = { λ _ e. e ≡ faults.NoMemory };

    fn from(_error: AllocError) -> SourceFault {
        SourceFault::NoMemory
    }
}

impl<T: Drop> From<AllocFailed<T>> for SourceFault {
    ghost from_gives = { λ _ e. e ≡ faults.NoMemory };

    fn from(_error: AllocFailed<T>) -> SourceFault {
        SourceFault::NoMemory
    }
}

// The fault of a line with this flaw.
pub fn fault_at(line: u32, flaw: Flaw) -> SourceFault
    ensures { result ≡ fault_at line flaw }
{
    match flaw {
        Flaw::BadLine => SourceFault::BadLine { line },
        Flaw::UnknownDirective => SourceFault::UnknownDirective { line },
        Flaw::BadExpression => SourceFault::BadExpression { line },
        Flaw::NoMemory => SourceFault::NoMemory,
    }
}
