// Why bytes are refused.
ghost use Rattle.std.specs.Prelude.{◌≡◌};
ghost use Rattle.lisa_object.specs.declared.faults.GenFault.TheVariants as generation;
ghost use Rattle.lisa_object.specs.declared.faults.Stop.TheVariants.{NoMemory};

use lisa_words::Name;
use std::alloc::{AllocError, AllocFailed};
use thiserror::Error;

/// Why an image is refused.
#[derive(Debug, PartialEq, Eq, Drop, Error)]
pub enum ImageFault {
    /// The bytes are no image.
    #[error("line {line} is no line of an image")]
    NotAnImage { line: u32 },
    /// The image is for another description.
    #[error("the image is for another description")]
    OtherDescription { kept: [u8; 32], expected: [u8; 32] },
    /// No memory has this name, width and depth.
    #[error("no such memory: {name}")]
    NoSuchMemory { name: Name },
    /// Memory ran out.
    #[error("out of memory")]
    NoMemory,
}

/// Why an object is refused. Objects count from 1.
#[derive(Debug, PartialEq, Eq, Drop, Error)]
pub enum ObjectFault {
    /// The bytes are no object.
    #[error("line {line} of object {object} is no line of an object")]
    NotAnObject {
        object: u32,
        line: u32,
    },
    /// The object is for another description.
    #[error("object {object} is for another description")]
    OtherDescription {
        object: u32,
        kept: [u8; 32],
        expected: [u8; 32],
    },
    /// Memory ran out.
    #[error("out of memory")]
    NoMemory,
}

/// Why objects are not linked. Objects count from 1.
#[derive(Debug, PartialEq, Eq, Drop, Error)]
pub enum LinkFault {
    /// A section's name and width are no memory's.
    #[error("no such memory: {name}")]
    NoSuchMemory {
        name: Name,
    },
    /// Two objects define this name as global.
    #[error("two objects define {name} as global")]
    DuplicateGlobal {
        name: Name,
    },
    /// The objects together give a memory more cells than its depth.
    #[error("{cells} cells for {memory}, which has {depth}")]
    DoesNotFit {
        memory: Name,
        cells: u64,
        depth: u64,
    },
    /// A name is defined nowhere.
    #[error("object {object} uses {name}, which is not defined")]
    Undefined {
        object: u32,
        name: Name,
    },
    /// A value doesn't fit its field.
    #[error("in object {object} at {memory} {address}, {value} does not fit {width} bits")]
    FieldRange {
        object: u32,
        memory: Name,
        address: u64,
        value: i128,
        width: u32,
    },
    /// Memory ran out.
    #[error("out of memory")]
    NoMemory,
}

/// Why there is no program of instructions that are drawn.
#[derive(Debug, PartialEq, Eq, Drop, Error)]
pub enum GenFault {
    /// No memory is as wide as an instruction, or there is no instruction.
    #[error("no memory holds instructions, or there is none")]
    NoProgram,
    /// Memory ran out.
    #[error("out of memory")]
    NoMemory,
}

impl From<lisa_words::NoMemory> for GenFault {
    ghost from_gives = { λ _ fault. fault ≡ generation.NoMemory };

    fn from(_error: lisa_words::NoMemory) -> GenFault {
        GenFault::NoMemory
    }
}

/// Why reading stopped.
#[derive(Clone, Copy, Debug, PartialEq, Eq)]
pub enum Stop {
    /// The line that begins where so many bytes are left is none that may stand there.
    Misspelled { left: usize },
    NoMemory,
}

impl From<AllocError> for Stop {
    ghost from_gives = { λ _ e. e ≡ NoMemory };

    fn from(_error: AllocError) -> Stop {
        Stop::NoMemory
    }
}

impl<T: Drop> From<AllocFailed<T>> for Stop {
    ghost from_gives = { λ _ e. e ≡ NoMemory };

    fn from(_error: AllocFailed<T>) -> Stop {
        Stop::NoMemory
    }
}

impl From<lisa_words::NoMemory> for Stop {
    ghost from_gives = { λ _ e. e ≡ NoMemory };

    fn from(_error: lisa_words::NoMemory) -> Stop {
        Stop::NoMemory
    }
}
