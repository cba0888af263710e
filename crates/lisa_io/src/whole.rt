// Whole files in, whole texts out.
ghost use Rattle.std.specs.Prelude.{◌≡◌, ◌<◌, ◌≤◌, ◌++◌, List, ℕ, Option, Ok, Err, IfOk, OnOk, OnErr, IsErrOf, IsErrAnd, MatchResult, ◌⊎◌, length, vec_len};
ghost use Rattle.lisa_io.specs.Causes.{Rose};
ghost use Rattle.lisa_io.specs.declared.whole.ReadEnd.TheVariants.{NoMemory, ReadFault};
ghost use Rattle.lisa_io.specs.Contents.{Tells, TellsNone, Puts};

use crate::outside::{Failed, Files, Sink};
use std::alloc::{AllocError, AllocFailed, Global};
use thiserror::Error;

/// Why a file wasn't read whole.
#[derive(Clone, Copy, Debug, PartialEq, Eq, Error)]
pub enum ReadEnd {
    /// The outside failed.
    #[error("read fault")]
    ReadFault,
    /// The file has more bytes than the limit.
    #[error("too long")]
    TooLong,
    /// Memory was wanted and not given.
    #[error("out of memory")]
    NoMemory,
}

impl From<Failed> for ReadEnd {
    ghost from_gives = { λ _ end. end ≡ ReadFault };

    fn from(_failed: Failed) -> ReadEnd {
        ReadEnd::ReadFault
    }
}

impl From<AllocError> for ReadEnd {
    ghost from_gives = { λ _ end. end ≡ NoMemory };

    fn from(_error: AllocError) -> ReadEnd {
        ReadEnd::NoMemory
    }
}

impl<T: Drop> From<AllocFailed<T>> for ReadEnd {
    ghost from_gives = { λ _ end. end ≡ NoMemory };

    fn from(_error: AllocFailed<T>) -> ReadEnd {
        ReadEnd::NoMemory
    }
}

// How many bytes one read takes at most.
const BLOCK: usize = 65_536;

/// Reads a file whole, which has at most `limit` bytes, block by block.
///
/// The first read comes before any memory is taken.
pub fn read_whole<F: Files>(
    alloc: Global,
    files: &mut F,
    name: &str,
    limit: u64,
) -> Result<Vec<u8>, ReadEnd>
    ensures short { IfOk result (λ v. length v.items ≤ limit) }
    ensures bytes { (bytes : List ℕ) → Tells (F.held files.old) name.now bytes → IfOk result (λ v. v.items ≡ bytes) }

    // When each other answer comes; want of memory is free.
    ensures fault { IsErrOf result ReadEnd.ReadFault → Rose (F.faults files.old name.now) (F.faults files.new name.now) }
    ensures too_long { (bytes : List ℕ) → Tells (F.held files.old) name.now bytes → IsErrOf result ReadEnd.TooLong → limit < length bytes }
    ensures missing { TellsNone (F.held files.old) name.now → IsErrOf result ReadEnd.ReadFault }

    // Where the bytes are told and nothing failed, the answer is theirs, or want of memory.
    ensures whole { (bytes : List ℕ) → Tells (F.held files.old) name.now bytes → ¬ Rose (F.faults files.old name.now) (F.faults files.new name.now)
        → length bytes ≤ limit → MatchResult result (λ v. v.items ≡ bytes) (λ e. e ≡ ReadEnd.NoMemory) }
    ensures cut { (bytes : List ℕ) → Tells (F.held files.old) name.now bytes → ¬ Rose (F.faults files.old name.now) (F.faults files.new name.now)
        → limit < length bytes → IsErrAnd result (λ e. (e ≡ ReadEnd.TooLong) ⊎ (e ≡ ReadEnd.NoMemory)) }

    // What files hold stays, and no count of faults falls.
    ensures held { F.held files.new ≡ F.held files.old }
    ensures later { (other : List ℕ) → F.faults files.old other ≤ F.faults files.new other }
{
    let mut bytes = Vec::new(alloc);
    let mut block = [0; BLOCK];
    while bytes.len() as u64 <= limit {
        let more = (limit - bytes.len() as u64).min(BLOCK as u64 - 1) as usize;
        let count = files.read(name, bytes.len() as u64, &mut block[..more + 1])?;
        if count == 0 {
            return Ok(bytes);
        }
        bytes.extend_from_slice(&block[..count])?;
    }
    Err(ReadEnd::TooLong)
}

/// Appends all the bytes; after a failure, a front of them.
pub fn put_all<O: Sink>(out: &mut O, bytes: &[u8]) -> Result<(), Failed>
    ensures { Puts (O.written out.old) (O.written out.new) (O.faults out.old) (O.faults out.new) result bytes.now }
{
    let mut at = 0;
    while at < bytes.len() {
        let count = out.put(&bytes[at..])?;
        at += count;
    }
    Ok(())
}
