//! The lines of the faults of a description, of the files, of the input and of a program that is drawn.
ghost use Rattle.std.specs.Prelude.{◌≡◌, ◌∷◌, [], codes, take, drop};
ghost use Rattle.refusal_lines.specs.Lines.{name, number};
ghost use Rattle.refusal_lines.specs.LineViews.{line_of, fields_of};
ghost use Rattle.refusal_lines.specs.DescriptionLines.{description_line};
ghost use Rattle.refusal_lines.specs.OwnLines.{file_line, input_line, program_line};

use crate::lines::{
    Field, Line, line0, name_field, named_line, number_field, text_field, word_field,
};
use lisa_object::GenFault;
use lisa_outcomes::{FileFault, InputFault};
use lisa_tree::DescFault;
use lisa_words::Name;

// A field with a byte's place.
fn place(at: u32) -> Option<Field<'static>>
    ensures { fields_of result ≡ number (codes "at") at ∷ [] }
{
    Some(number_field(b"at", at as u64))
}

// A field with a name.
fn named<'a>(label: &'a [u8], value: &'a Name) -> Option<Field<'a>>
    ensures { fields_of result ≡ name label.now value.now ∷ [] }
{
    Some(name_field(label, value.as_bytes()))
}

// A field with a decimal number.
fn counted(label: &[u8], value: u64) -> Option<Field<'_>>
    ensures { fields_of result ≡ number label.now value ∷ [] }
{
    Some(number_field(label, value))
}

// The area, number and name of a description's fault.
fn head_of(fault: &DescFault) -> &'static [u8]
    ensures { result.now ≡ (description_line fault.now).head }
{
    match fault {
        DescFault::BadByte { .. } => b"description 1 BadByte",
        DescFault::NumberTooWide { .. } => b"description 2 NumberTooWide",
        DescFault::NameTooLong { .. } => b"description 3 NameTooLong",
        DescFault::TooDeep { .. } => b"description 4 TooDeep",
        DescFault::NotADescription { .. } => b"description 5 NotADescription",
        DescFault::Duplicate { .. } => b"description 6 Duplicate",
        DescFault::Unknown { .. } => b"description 7 Unknown",
        DescFault::WrongKind { .. } => b"description 8 WrongKind",
        DescFault::BadWidth { .. } => b"description 9 BadWidth",
        DescFault::BadDepth { .. } => b"description 10 BadDepth",
        DescFault::Narrowing { .. } => b"description 11 Narrowing",
        DescFault::LoopWithoutBound { .. } => b"description 12 LoopWithoutBound",
        DescFault::LoopTooLong { .. } => b"description 13 LoopTooLong",
        DescFault::Circular { .. } => b"description 14 Circular",
        DescFault::Backward { .. } => b"description 15 Backward",
        DescFault::Control { .. } => b"description 16 Control",
        DescFault::BadMain {} => b"description 17 BadMain",
        DescFault::BadReset {} => b"description 18 BadReset",
        DescFault::GroupWidth { .. } => b"description 19 GroupWidth",
        DescFault::NotWritten { .. } => b"description 20 NotWritten",
        DescFault::RootTwice { .. } => b"description 21 RootTwice",
        DescFault::TooMany { .. } => b"description 22 TooMany",
        DescFault::BadText { .. } => b"description 23 BadText",
        DescFault::Overlap { .. } => b"description 24 Overlap",
        DescFault::Ambiguous { .. } => b"description 25 Ambiguous",
        DescFault::NotAnAlias { .. } => b"description 26 NotAnAlias",
        DescFault::NoMemory => b"",
    }
}

// The first field of a description's fault, where it has one.
fn first_field(fault: &DescFault) -> Option<Field<'_>>
    ensures { fields_of result ≡ take 1 (description_line fault.now).fields }
{
    match fault {
        DescFault::BadByte { at } => place(*at),
        DescFault::NumberTooWide { at } => place(*at),
        DescFault::NameTooLong { at } => place(*at),
        DescFault::TooDeep { at } => place(*at),
        DescFault::NotADescription { at } => place(*at),
        DescFault::Duplicate { name } => named(b"name", name),
        DescFault::Unknown { operation, .. } => named(b"operation", operation),
        DescFault::WrongKind { operation, .. } => named(b"operation", operation),
        DescFault::BadWidth { name, .. } => named(b"name", name),
        DescFault::BadDepth { name, .. } => named(b"name", name),
        DescFault::Narrowing { operation, .. } => named(b"operation", operation),
        DescFault::LoopWithoutBound { operation } => named(b"operation", operation),
        DescFault::LoopTooLong { operation, .. } => named(b"operation", operation),
        DescFault::Circular { operation } => named(b"operation", operation),
        DescFault::Backward { activator, .. } => named(b"activator", activator),
        DescFault::Control { operation, .. } => named(b"operation", operation),
        DescFault::GroupWidth { operation, .. } => named(b"operation", operation),
        DescFault::NotWritten { operation, .. } => named(b"operation", operation),
        DescFault::RootTwice { operation } => named(b"operation", operation),
        DescFault::TooMany { what, .. } => named(b"what", what),
        DescFault::BadText { form } => named(b"form", form),
        DescFault::Overlap { first, .. } => named(b"first", first),
        DescFault::Ambiguous { first, .. } => named(b"first", first),
        DescFault::NotAnAlias { form } => named(b"form", form),
        _ => None,
    }
}

// The second field of a description's fault, where it has one.
fn second_field(fault: &DescFault) -> Option<Field<'_>>
    ensures { fields_of result ≡ take 1 (drop 1 (description_line fault.now).fields) }
{
    match fault {
        DescFault::Unknown { name, .. } => named(b"name", name),
        DescFault::WrongKind { name, .. } => named(b"name", name),
        DescFault::BadWidth { width, .. } => counted(b"width", *width as u64),
        DescFault::BadDepth { depth, .. } => counted(b"depth", *depth),
        DescFault::Narrowing { from, .. } => counted(b"from", *from as u64),
        DescFault::LoopTooLong { turns, .. } => counted(b"turns", *turns),
        DescFault::Backward { activated, .. } => named(b"activated", activated),
        DescFault::Control { stage, .. } => named(b"stage", stage),
        DescFault::GroupWidth { name, .. } => named(b"name", name),
        DescFault::NotWritten { name, .. } => named(b"name", name),
        DescFault::TooMany { count, .. } => counted(b"count", *count),
        DescFault::Overlap { second, .. } => named(b"second", second),
        DescFault::Ambiguous { second, .. } => named(b"second", second),
        _ => None,
    }
}

// The third field of a description's fault, where it has one.
fn third_field(fault: &DescFault) -> Option<Field<'_>>
    ensures { fields_of result ≡ take 1 (drop 2 (description_line fault.now).fields) }
{
    match fault {
        DescFault::Narrowing { to, .. } => counted(b"to", *to as u64),
        DescFault::TooMany { limit, .. } => counted(b"limit", *limit),
        DescFault::Overlap { word, .. } => Some(word_field(b"word", *word)),
        DescFault::Ambiguous { text, .. } => Some(text_field(b"text", text.as_bytes())),
        _ => None,
    }
}

/// The line of a description's fault.
pub fn description_line(fault: &DescFault) -> Line<'_>
    ensures { line_of result ≡ description_line fault.now }
{
    Line {
        head: head_of(fault),
        first: first_field(fault),
        second: second_field(fault),
        third: third_field(fault),
        fourth: None,
        fifth: None,
    }
}

/// The line of a fault of a file.
pub fn file_line(fault: &FileFault) -> Line<'_>
    ensures { line_of result ≡ file_line fault.now }
{
    match fault {
        FileFault::TooLong { name } => named_line(b"file 1 TooLong", name),
        FileFault::NoMemory => line0(b""),
    }
}

/// The line of a fault of the input.
pub fn input_line(fault: &InputFault) -> Line<'_>
    ensures { line_of result ≡ input_line fault.now }
{
    match fault {
        InputFault::TooLong {} => line0(b"input 1 TooLong"),
        InputFault::NoMemory => line0(b""),
    }
}

/// The line of a fault of a program that is to be drawn.
pub fn program_line(fault: &GenFault) -> Line<'_>
    ensures { line_of result ≡ program_line fault.now }
{
    match fault {
        GenFault::NoProgram => line0(b"program 1 NoProgram"),
        GenFault::NoMemory => line0(b""),
    }
}
