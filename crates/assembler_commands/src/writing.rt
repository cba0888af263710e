//! Writing a text that is at hand.
ghost use Rattle.lisa_outcomes.specs.Writes.{Writes};

use lisa_io::{Sink, put_all};
use lisa_outcomes::End;

/// Writes a text.
pub fn write_text<O: Sink>(text: &[u8], out: &mut O) -> Result<(), End>
    ensures { Writes (O.written out.old) (O.written out.new) (O.faults out.old) (O.faults out.new) result text.now }
{
    match put_all(out, text) {
        Ok(()) => Ok(()),
        Err(_) => Err(End::WriteFault),
    }
}
