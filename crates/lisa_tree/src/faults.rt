//! What may be wrong with a description.

ghost use Rattle.std.specs.Prelude.{◌≡◌};
ghost use Rattle.lisa_tree.specs.declared.faults.DescFault.TheVariants as faults;

use lisa_words::{Name, NoMemory};
use std::alloc::{AllocError, AllocFailed};

/// The first fault of a description, by number, and inside a number by its place in the source. A fault in the
/// resources has the empty name as its operation. The documentation of each variant says when it comes.
#[derive(Debug, PartialEq, Eq, Drop)]
pub enum DescFault {
    /// 1: no token begins or goes on at this byte.
    BadByte {
        at: u32,
    },
    /// 2: a number is 2^64 or more, or a pattern has more than 64 digits; the place is its first byte.
    NumberTooWide {
        at: u32,
    },
    /// 3: a name has more than 64 bytes; the place is its first byte.
    NameTooLong {
        at: u32,
    },
    /// 4: more than 64 brackets are open at this token, the first such one.
    TooDeep {
        at: u32,
    },
    /// 5: no description of depth at most 128 spells the tokens; the place is at most the number of bytes.
    NotADescription {
        at: u32,
    },
    /// 6: two things of one class share this name, or stand twice.
    Duplicate {
        name: Name,
    },
    /// 7: a name stands for nothing there.
    Unknown {
        operation: Name,
        name: Name,
    },
    /// 8: a name is used against its declaration.
    WrongKind {
        operation: Name,
        name: Name,
    },
    /// 9: a width isn't from 1 to 64, or a loop's variable can't hold one of its values.
    BadWidth {
        name: Name,
        width: u32,
    },
    /// 10: an array's depth isn't a power of two from 2 to 1,048,576.
    BadDepth {
        name: Name,
        depth: u64,
    },
    /// 11: a value wider than its place is assigned without a cast.
    Narrowing {
        operation: Name,
        from: u32,
        to: u32,
    },
    /// 12: a loop isn't of the bounded form.
    LoopWithoutBound {
        operation: Name,
    },
    /// 13: a bounded loop has more than 256 turns.
    LoopTooLong {
        operation: Name,
        turns: u64,
    },
    /// 14: an operation reaches itself through groups, instances and references.
    Circular {
        operation: Name,
    },
    /// 15: an operation that runs in a stage activates one of an earlier stage.
    Backward {
        activator: Name,
        activated: Name,
    },
    /// 16: a stall or flush stands neither in `main` nor in an operation of a later stage.
    Control {
        operation: Name,
        stage: Name,
    },
    /// 17: there is no fitting `main`.
    BadMain {},
    /// 18: `reset` is more than assignments of registers and locals.
    BadReset {},
    /// 19: the alternatives of a child in a coding differ in width.
    GroupWidth {
        operation: Name,
        name: Name,
    },
    /// 20: a label or child isn't written once in the coding and once in the syntax.
    NotWritten {
        operation: Name,
        name: Name,
    },
    /// 21: there is a second root, or the root occurs twice.
    RootTwice {
        operation: Name,
    },
    /// 22: a count exceeds its limit.
    TooMany {
        what: Name,
        count: u64,
        limit: u64,
    },
    /// 23: a form's text can't be read.
    BadText {
        form: Name,
    },
    /// 24: two forms share a word.
    Overlap {
        first: Name,
        second: Name,
        word: u64,
    },
    /// 25: two forms have a text in common.
    Ambiguous {
        first: Name,
        second: Name,
        text: Name,
    },
    /// 26: an alias form is covered by no plain form.
    NotAnAlias {
        form: Name,
    },
    /// Memory was wanted and not given.
    NoMemory,
}

impl From<NoMemory> for DescFault {
    ghost from_gives = { λ _ fault. fault ≡ faults.NoMemory };

    fn from(_error: NoMemory) -> DescFault {
        DescFault::NoMemory
    }
}

impl From<AllocError> for DescFault {
    ghost from_gives = { λ _ fault. fault ≡ faults.NoMemory };

    fn from(_error: AllocError) -> DescFault {
        DescFault::NoMemory
    }
}

impl<T: Drop> From<AllocFailed<T>> for DescFault {
    ghost from_gives = { λ _ fault. fault ≡ faults.NoMemory };

    fn from(_error: AllocFailed<T>) -> DescFault {
        DescFault::NoMemory
    }
}
