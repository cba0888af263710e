//! The lines of the faults of a source, an object and of linking.
ghost use Rattle.std.specs.Prelude.{◌≡◌};
ghost use Rattle.refusal_lines.specs.LineViews.{line_of};
ghost use Rattle.refusal_lines.specs.SourceLines.{source_line, object_line, link_line};

use crate::lines::{
    Line, at_line, at_line_named, digest_field, integer_field, line0, line2, line3, line5,
    name_field, named_line, number_field,
};
use asm_source::SourceFault;
use lisa_object::{LinkFault, ObjectFault};

/// The line of a source's fault.
pub fn source_line(fault: &SourceFault) -> Line<'_>
    ensures { line_of result ≡ source_line fault.now }
{
    match fault {
        SourceFault::BadLine { line } => at_line(b"source 1 BadLine", *line),
        SourceFault::UnknownDirective { line } => at_line(b"source 2 UnknownDirective", *line),
        SourceFault::BadExpression { line } => at_line(b"source 3 BadExpression", *line),
        SourceFault::NoSection { line } => at_line(b"source 4 NoSection", *line),
        SourceFault::UnknownMemory { line, name } => {
            at_line_named(b"source 5 UnknownMemory", *line, name)
        }
        SourceFault::NotProgram { line } => at_line(b"source 6 NotProgram", *line),
        SourceFault::NoInstruction { line } => at_line(b"source 7 NoInstruction", *line),
        SourceFault::TwoInstructions {
            line,
            first,
            second,
        } => line3(
            b"source 8 TwoInstructions",
            number_field(b"line", *line as u64),
            name_field(b"first", first.as_bytes()),
            name_field(b"second", second.as_bytes()),
        ),
        SourceFault::DuplicateLabel { line, name } => {
            at_line_named(b"source 9 DuplicateLabel", *line, name)
        }
        SourceFault::FieldRange { line, value, width } => line3(
            b"source 10 FieldRange",
            number_field(b"line", *line as u64),
            integer_field(b"value", *value),
            number_field(b"width", *width as u64),
        ),
        SourceFault::NoMemory => line0(b""),
    }
}

/// The line of an object's fault.
pub fn object_line(fault: &ObjectFault) -> Line<'_>
    ensures { line_of result ≡ object_line fault.now }
{
    match fault {
        ObjectFault::NotAnObject { object, line } => line2(
            b"object 1 NotAnObject",
            number_field(b"object", *object as u64),
            number_field(b"line", *line as u64),
        ),
        ObjectFault::OtherDescription {
            object,
            kept,
            expected,
        } => line3(
            b"object 2 OtherDescription",
            number_field(b"object", *object as u64),
            digest_field(b"kept", kept),
            digest_field(b"expected", expected),
        ),
        ObjectFault::NoMemory => line0(b""),
    }
}

/// The line of a fault of linking.
pub fn link_line(fault: &LinkFault) -> Line<'_>
    ensures { line_of result ≡ link_line fault.now }
{
    match fault {
        LinkFault::NoSuchMemory { name } => named_line(b"link 1 NoSuchMemory", name),
        LinkFault::DuplicateGlobal { name } => named_line(b"link 2 DuplicateGlobal", name),
        LinkFault::DoesNotFit {
            memory,
            cells,
            depth,
        } => line3(
            b"link 3 DoesNotFit",
            name_field(b"memory", memory.as_bytes()),
            number_field(b"cells", *cells),
            number_field(b"depth", *depth),
        ),
        LinkFault::Undefined { object, name } => line2(
            b"link 4 Undefined",
            number_field(b"object", *object as u64),
            name_field(b"name", name.as_bytes()),
        ),
        LinkFault::FieldRange {
            object,
            memory,
            address,
            value,
            width,
        } => line5(
            b"link 5 FieldRange",
            number_field(b"object", *object as u64),
            name_field(b"memory", memory.as_bytes()),
            number_field(b"address", *address),
            integer_field(b"value", *value),
            number_field(b"width", *width as u64),
        ),
        LinkFault::NoMemory => line0(b""),
    }
}
