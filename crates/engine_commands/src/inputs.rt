//! The input of a command that takes it whole.
ghost use Rattle.std.specs.Prelude.{◌≡◌, ◌<◌, ◌≤◌, ℕ, List, Some, Err, IfOk, OnOk, length};
ghost use Rattle.std.specs.Io.KnownBytes.{IsAtEnd};
ghost use Rattle.lisa_io.specs.Causes.{Rose};
ghost use Rattle.lisa_io.specs.declared.whole.ReadEnd.TheVariants.{ReadFault, TooLong};
ghost use Rattle.engine_commands.specs.Inputs.{TakesWithin};

use lisa_io::{ReadEnd, Source};
use std::alloc::Global;

// How many bytes are taken at once.
const PIECE: usize = 4_096;

/// Takes the input whole, which has at most `limit` bytes, piece by piece; of a longer one, one byte more than these.
pub fn take_whole<I: Source>(alloc: Global, input: &mut I, limit: u32) -> Result<Vec<u8>, ReadEnd>
    ensures short { IfOk result (λ v. length v.items ≤ limit) }
    ensures bytes { (bytes : List ℕ) → I.left input.old ≡ Some bytes → IfOk result (λ v. v.items ≡ bytes) }
    ensures end { OnOk result (IsAtEnd (I.left input.new)) }

    // When each other answer comes; want of memory is free.
    ensures too_long { (bytes : List ℕ) → I.left input.old ≡ Some bytes → result ≡ Err TooLong → limit < length bytes }
    ensures fault { result ≡ Err ReadFault → Rose (I.faults input.old) (I.faults input.new) }

    // Whatever the answer, no more than that is taken, and the count of faults doesn't fall.
    ensures within { TakesWithin limit (I.left input.old) (I.left input.new) }
    ensures later { I.faults input.old ≤ I.faults input.new }
{
    let most = limit as usize;
    let mut bytes = Vec::new(alloc);
    let mut piece = [0; PIECE];
    while bytes.len() <= most {
        let room = (most + 1 - bytes.len()).min(PIECE);
        let count = input.take(&mut piece[..room])?;
        if count == 0 {
            return Ok(bytes);
        }
        bytes.extend_from_slice(&piece[..count])?;
    }
    Err(ReadEnd::TooLong)
}
