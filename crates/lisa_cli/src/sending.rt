//! The last of a command's output.
ghost use Rattle.lisa_cli.specs.Sent.{IsSentOn};

use lisa_io::Flush;
use lisa_outcomes::End;

/// Sends on what a command's output holds back, but for a command that ended in a write fault. Where that fails, a command that was
/// done or refused ends in a write fault; one that had failed ends as it did.
pub fn sent_on<O: Flush>(end: Result<(), End>, out: &mut O) -> Result<(), End>
    ensures { IsSentOn (O.written out.old) (O.written out.new) (O.sent out.new) (O.faults out.old) (O.faults out.new) end result }
{
    match end {
        Err(End::WriteFault) => Err(End::WriteFault),
        Err(End::ReadFault) => {
            let _ = out.flush();
            Err(End::ReadFault)
        }
        Err(End::NoMemory) => Err(End::NoMemory),
        Ok(()) => match out.flush() {
            Ok(()) => Ok(()),
            Err(_) => Err(End::WriteFault),
        },
        Err(End::Refused(refusal)) => match out.flush() {
            Ok(()) => Err(End::Refused(refusal)),
            Err(_) => Err(End::WriteFault),
        },
    }
}
