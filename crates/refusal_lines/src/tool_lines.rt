//! The lines of the faults of files that other tools write or read: memories in two formats, and value change dumps.
ghost use Rattle.std.specs.Prelude.{◌≡◌, ◌∷◌, [], codes};
ghost use Rattle.refusal_lines.specs.Lines.{line, number};
ghost use Rattle.refusal_lines.specs.LineViews.{line_of};
ghost use Rattle.refusal_lines.specs.ToolLines.{hex_line, memh_line, vcd_line};

use crate::lines::{
    Line, at_byte, at_line, line0, line2, line3, name_field, named_line, number_field,
};
use hex_files::{HexFault, MemhFault};
use vcd_trace::VcdFault;

// The line of a cell whose value doesn't fit its width.
fn cell_line(head: &[u8], index: u64, value: u64, width: u64) -> Line<'_>
    ensures { line_of result ≡ line head.now (number (codes "index") index ∷ number (codes "value") value ∷ number (codes "width") width ∷ []) }
{
    line3(
        head,
        number_field(b"index", index),
        number_field(b"value", value),
        number_field(b"width", width),
    )
}

/// The line of a fault of an Intel HEX file.
pub fn hex_line(fault: &HexFault) -> Line<'_>
    ensures { line_of result ≡ hex_line fault.now }
{
    match fault {
        HexFault::NoSuchMemory { name } => named_line(b"hex 1 NoSuchMemory", name),
        HexFault::BadRecord { line } => at_line(b"hex 2 BadRecord", *line),
        HexFault::BadSum {
            line,
            kept,
            expected,
        } => line3(
            b"hex 3 BadSum",
            number_field(b"line", *line as u64),
            number_field(b"kept", *kept as u64),
            number_field(b"expected", *expected as u64),
        ),
        HexFault::RecordType { line, kind } => line2(
            b"hex 4 RecordType",
            number_field(b"line", *line as u64),
            number_field(b"kind", *kind as u64),
        ),
        HexFault::AfterEnd { line } => at_line(b"hex 5 AfterEnd", *line),
        HexFault::PastEnd {
            line,
            address,
            bytes,
        } => line3(
            b"hex 6 PastEnd",
            number_field(b"line", *line as u64),
            number_field(b"address", *address),
            number_field(b"bytes", *bytes),
        ),
        HexFault::NoEnd => line0(b"hex 7 NoEnd"),
        HexFault::CellRange {
            index,
            value,
            width,
        } => cell_line(b"hex 8 CellRange", *index, *value, *width),
        HexFault::NoMemory => line0(b""),
    }
}

/// The line of a fault of a `$readmemh` file.
pub fn memh_line(fault: &MemhFault) -> Line<'_>
    ensures { line_of result ≡ memh_line fault.now }
{
    match fault {
        MemhFault::NoSuchMemory { name } => named_line(b"memh 1 NoSuchMemory", name),
        MemhFault::BadWord { at } => at_byte(b"memh 2 BadWord", *at),
        MemhFault::CellRange {
            index,
            value,
            width,
        } => cell_line(b"memh 3 CellRange", *index, *value, *width),
        MemhFault::PastEnd { index, depth } => line2(
            b"memh 4 PastEnd",
            number_field(b"index", *index),
            number_field(b"depth", *depth),
        ),
        MemhFault::NoMemory => line0(b""),
    }
}

/// The line of a fault of a value change dump.
pub fn vcd_line(fault: &VcdFault) -> Line<'_>
    ensures { line_of result ≡ vcd_line fault.now }
{
    match fault {
        VcdFault::BadToken { at } => at_byte(b"vcd 1 BadToken", *at),
        VcdFault::UnknownCode { at } => at_byte(b"vcd 2 UnknownCode", *at),
        VcdFault::BadWidth { name, width } => line2(
            b"vcd 3 BadWidth",
            name_field(b"name", name.as_bytes()),
            number_field(b"width", *width),
        ),
        VcdFault::NotRising { at } => at_byte(b"vcd 4 NotRising", *at),
        VcdFault::ValueWidth { at } => at_byte(b"vcd 5 ValueWidth", *at),
        VcdFault::NoFirst { name } => named_line(b"vcd 6 NoFirst", name),
        VcdFault::TooMany { what, count, limit } => line3(
            b"vcd 7 TooMany",
            name_field(b"what", what.as_bytes()),
            number_field(b"count", *count),
            number_field(b"limit", *limit),
        ),
        VcdFault::NoMemory => line0(b""),
    }
}
