//! The lines of the faults of a netlist, a module, an image, a schedule and a board.
ghost use Rattle.std.specs.Prelude.{◌≡◌};
ghost use Rattle.refusal_lines.specs.LineViews.{line_of};
ghost use Rattle.refusal_lines.specs.ModuleLines.{netlist_line, verilog_line, image_line, schedule_line, board_line};

use crate::lines::{
    Line, at_byte, at_line, at_line_named, digest_field, line0, line2, line3, name_field,
    named_line, number_field,
};
use lisa_board::BoardFault;
use lisa_engine::ScheduleFault;
use lisa_object::ImageFault;
use step_program::LowerFault;
use verilog_text::VerilogFault;

/// The line of what stands against the module of a description.
pub fn netlist_line(fault: &LowerFault) -> Line<'_>
    ensures { line_of result ≡ netlist_line fault.now }
{
    match fault {
        LowerFault::TooMany { what, count, limit } => line3(
            b"netlist 1 TooMany",
            name_field(b"what", what.as_bytes()),
            number_field(b"count", *count),
            number_field(b"limit", *limit),
        ),
        LowerFault::NoMemory => line0(b""),
    }
}

/// The line of a module's fault.
pub fn verilog_line(fault: &VerilogFault) -> Line<'_>
    ensures { line_of result ≡ verilog_line fault.now }
{
    match fault {
        VerilogFault::BadByte { at } => at_byte(b"verilog 1 BadByte", *at),
        VerilogFault::TooDeep { at } => at_byte(b"verilog 2 TooDeep", *at),
        VerilogFault::NotInSubset { at } => at_byte(b"verilog 3 NotInSubset", *at),
        VerilogFault::DuplicateName { name } => named_line(b"verilog 4 DuplicateName", name),
        VerilogFault::UsedBeforeDeclared { name } => named_line(
            b"verilog 5 UsedBeforeDeclared",
            name,
        ),
        VerilogFault::WrongUse { name } => named_line(b"verilog 6 WrongUse", name),
        VerilogFault::NoInitial { name } => named_line(b"verilog 7 NoInitial", name),
        VerilogFault::IndexWidth {
            name,
            width,
            needed,
        } => line3(
            b"verilog 8 IndexWidth",
            name_field(b"name", name.as_bytes()),
            number_field(b"width", *width as u64),
            number_field(b"needed", *needed as u64),
        ),
        VerilogFault::TooWide { at } => at_byte(b"verilog 9 TooWide", *at),
        VerilogFault::TwoDrivers { name } => named_line(b"verilog 10 TwoDrivers", name),
        VerilogFault::TooMany { what, count, limit } => line3(
            b"verilog 11 TooMany",
            name_field(b"what", what.as_bytes()),
            number_field(b"count", *count),
            number_field(b"limit", *limit),
        ),
        VerilogFault::NoMemory => line0(b""),
    }
}

/// The line of an image's fault.
pub fn image_line(fault: &ImageFault) -> Line<'_>
    ensures { line_of result ≡ image_line fault.now }
{
    match fault {
        ImageFault::NotAnImage { line } => at_line(b"image 1 NotAnImage", *line),
        ImageFault::OtherDescription { kept, expected } => line2(
            b"image 2 OtherDescription",
            digest_field(b"kept", kept),
            digest_field(b"expected", expected),
        ),
        ImageFault::NoSuchMemory { name } => named_line(b"image 3 NoSuchMemory", name),
        ImageFault::NoMemory => line0(b""),
    }
}

/// The line of a schedule's fault.
pub fn schedule_line(fault: &ScheduleFault) -> Line<'_>
    ensures { line_of result ≡ schedule_line fault.now }
{
    match fault {
        ScheduleFault::BadLine { line } => at_line(b"schedule 1 BadLine", *line),
        ScheduleFault::UnknownPin { line, name } => line2(
            b"schedule 2 UnknownPin",
            number_field(b"line", *line as u64),
            name_field(b"name", name.as_bytes()),
        ),
        ScheduleFault::NotRising { line } => at_line(b"schedule 3 NotRising", *line),
        ScheduleFault::PinRange { line, name, value } => line3(
            b"schedule 4 PinRange",
            number_field(b"line", *line as u64),
            name_field(b"name", name.as_bytes()),
            number_field(b"value", *value),
        ),
        ScheduleFault::NoMemory => line0(b""),
    }
}

/// The line of a board's fault.
pub fn board_line(fault: &BoardFault) -> Line<'_>
    ensures { line_of result ≡ board_line fault.now }
{
    match fault {
        BoardFault::BadLine { line } => at_line(b"board 1 BadLine", *line),
        BoardFault::UnknownItem { line, name } => {
            at_line_named(b"board 2 UnknownItem", *line, name)
        }
        BoardFault::UnknownPin { line, name } => {
            at_line_named(b"board 3 UnknownPin", *line, name)
        }
        BoardFault::PinTaken { line, name } => at_line_named(b"board 4 PinTaken", *line, name),
        BoardFault::PinWidth { line, name, width } => line3(
            b"board 5 PinWidth",
            number_field(b"line", *line as u64),
            name_field(b"name", name.as_bytes()),
            number_field(b"width", *width),
        ),
        BoardFault::TooMany { line, what, limit } => line3(
            b"board 6 TooMany",
            number_field(b"line", *line as u64),
            name_field(b"what", what.as_bytes()),
            number_field(b"limit", *limit),
        ),
        BoardFault::NoMemory => line0(b""),
    }
}
