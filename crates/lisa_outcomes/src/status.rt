//! How a run ends.

use asm_source::SourceFault;
use hex_files::{HexFault, MemhFault};
use lisa_board::BoardFault;
use lisa_engine::ScheduleFault;
use lisa_object::{GenFault, ImageFault, LinkFault, ObjectFault};
use lisa_tree::DescFault;
use lisa_words::{Name, NoMemory};
use step_program::LowerFault;
use vcd_trace::VcdFault;
use verilog_text::VerilogFault;

/// What may be wrong with a file as a whole.
#[derive(Debug, PartialEq, Eq, Drop)]
pub enum FileFault {
    /// 1: the file has more bytes than its kind may have.
    TooLong { name: Name },
    /// Memory was wanted and not given.
    NoMemory,
}

/// What may be wrong with the input as a whole.
#[derive(Debug, PartialEq, Eq, Drop)]
pub enum InputFault {
    /// 1: the input has more bytes than a command takes; that of a session, and no `quit` among the first of them.
    TooLong {},
    /// Memory was wanted and not given.
    NoMemory,
}

/// Why a run is refused, by area. A refusal never holds a fault's variant for want of memory.
#[derive(Debug, Drop)]
pub enum Refusal {
    File(FileFault),
    Input(InputFault),
    Program(GenFault),
    Netlist(LowerFault),
    Description(DescFault),
    Verilog(VerilogFault),
    Image(ImageFault),
    Object(ObjectFault),
    Schedule(ScheduleFault),
    Source(SourceFault),
    Link(LinkFault),
    Hex(HexFault),
    Memh(MemhFault),
    Vcd(VcdFault),
    Board(BoardFault),
}

/// How a run ended. The program exits with 0 to 5, in this order.
#[derive(Debug, Drop)]
pub enum Status {
    Done,
    Refused(Refusal),
    /// The words ask for nothing.
    Usage,
    ReadFault,
    WriteFault,
    NoMemory,
}

/// How a command ended that isn't done.
#[derive(Debug, Drop)]
pub enum End {
    Refused(Refusal),
    ReadFault,
    WriteFault,
    NoMemory,
}

impl From<NoMemory> for End {
    fn from(_error: NoMemory) -> End {
        End::NoMemory
    }
}
