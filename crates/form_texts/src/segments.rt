//! What operations write, but for the fields and the children of their forms.

ghost use Rattle.std.specs.Prelude.{◌≡◌, ◌++◌, ℕ, List, [], map, IfOk, OnOk};
ghost use Rattle.instruction_texts.specs.Symbols.{Sym, text_sym, written_by, gap};
ghost use Rattle.form_texts.specs.Syntaxes.{content};
ghost use Rattle.form_texts.specs.Strings.{AreOpened};
ghost use Rattle.form_texts.specs.Segments.{Writing, GoesOn, IsLonger, IsWritten, AreTemplates, slot_symbols, written_in, segments_at, shown_by};
ghost use Rattle.form_texts.specs.declared.strings.Strings.{Strings as AnyStrings};

use crate::places::{child_place, coding_items, field_place, operation_count, syntax_items};
use crate::strings::{StringTable, keep, text_symbol, word_front};
use crate::symbols::Symbol;
use lisa_tree::{CodingItem, Format, Names, SyntaxItem, SyntaxPart};
use lisa_words::NoMemory;
use std::alloc::Global;
use std::mem;

/// What each form has for itself where an operation writes it.
#[derive(Clone, Copy)]
pub(crate) enum Slot {
    /// The number of the field at this place among its own, and how it is written.
    Number(usize, Format),
    /// What the child at this place writes.
    Child(usize),
}

/// A part of what an operation writes.
#[derive(Clone, Copy)]
pub(crate) enum Segment {
    /// The same in all forms.
    Same(Symbol),
    Open(Slot),
}

/// What each operation writes, and the strings that are kept for them.
#[derive(Drop)]
pub(crate) struct Templates {
    pub segments: Vec<Vec<Segment>>,
    pub table: StringTable,
}

// How many bytes a text has at least that is kept.
const LONG: usize = 256;

// What a syntax writes so far: its segments, and the text behind them.
#[derive(Drop)]
struct Growing {
    segments: Vec<Segment>,
    text: Vec<u8>,
}

// Adds a text, byte by byte.
fn add_bytes(segments: &mut Vec<Segment>, text: &[u8]) -> Result<(), NoMemory>
    ensures { OnOk result ((all : List AnyStrings) (fields : List (ℕ × ℕ)) (parts : List (List (Sym ℕ))) → written_in all segments.new.items fields parts ≡ written_in all segments.old.items fields parts ++ map text_sym text.now) }
{
    for &byte in text {
        segments.push(Segment::Same(text_symbol(byte)))?;
    }
    Ok(())
}

// Ends the text so far. It is kept where it is long and more than one run.
fn end_text(alloc: Global, table: &mut StringTable, growing: &mut Growing) -> Result<(), NoMemory>
    requires opened { AreOpened table.old }
    ensures opened { OnOk result (AreOpened table.new) }
    ensures longer { OnOk result (IsLonger table.old.strings.items table.new.strings.items) }
    ensures empty { OnOk result (growing.new.text.items ≡ []) }
    ensures goes_on { OnOk result ((rest whole : Writing) → GoesOn table.old.strings.items growing.old rest whole → GoesOn table.new.strings.items growing.new rest whole) }
{
    let text = mem::replace(&mut growing.text, Vec::new(alloc));
    let head = word_front(&text);
    if text.len() < LONG || head >= text.len() {
        return add_bytes(&mut growing.segments, &text);
    }
    let number = table.strings.len();
    keep(alloc, table, text, head)?;
    growing
        .segments
        .push(Segment::Same(Symbol::Strings(number)))?;
    Ok(())
}

// Adds what each form has for itself.
fn add_slot(
    alloc: Global,
    table: &mut StringTable,
    growing: &mut Growing,
    slot: Slot,
) -> Result<(), NoMemory>
    requires opened { AreOpened table.old }
    ensures opened { OnOk result (AreOpened table.new) }
    ensures longer { OnOk result (IsLonger table.old.strings.items table.new.strings.items) }
    ensures goes_on { OnOk result ((rest whole : Writing) → GoesOn table.old.strings.items growing.old (λ fields parts. slot_symbols slot fields parts ++ rest fields parts) whole → GoesOn table.new.strings.items growing.new rest whole) }
{
    end_text(alloc, table, growing)?;
    growing.segments.push(Segment::Open(slot))?;
    Ok(())
}

// Adds a string, a number or a child.
fn add_content(
    alloc: Global,
    items: &[CodingItem],
    table: &mut StringTable,
    growing: &mut Growing,
    part: &SyntaxPart,
) -> Result<(), NoMemory>
    requires opened { AreOpened table.old }
    ensures opened { OnOk result (AreOpened table.new) }
    ensures longer { OnOk result (IsLonger table.old.strings.items table.new.strings.items) }
    ensures goes_on { OnOk result ((rest whole : Writing) → GoesOn table.old.strings.items growing.old (λ fields parts. written_by fields parts (content items.now part.now) ++ rest fields parts) whole → GoesOn table.new.strings.items growing.new rest whole) }
{
    match part {
        SyntaxPart::Literal(text) => {
            growing.text.extend_from_slice(text.as_bytes())?;
            Ok(())
        }
        SyntaxPart::Number(label, format) => {
            let slot = Slot::Number(field_place(items, label), *format);
            add_slot(alloc, table, growing, slot)
        }
        SyntaxPart::Child(name) => {
            let slot = Slot::Child(child_place(items, name));
            add_slot(alloc, table, growing, slot)
        }
    }
}

// Adds an element that others stand before, behind a blank where it isn't joined.
fn add_element(
    alloc: Global,
    items: &[CodingItem],
    table: &mut StringTable,
    growing: &mut Growing,
    item: &SyntaxItem,
) -> Result<(), NoMemory>
    requires opened { AreOpened table.old }
    ensures opened { OnOk result (AreOpened table.new) }
    ensures longer { OnOk result (IsLonger table.old.strings.items table.new.strings.items) }
    ensures goes_on { OnOk result ((rest whole : Writing) → GoesOn table.old.strings.items growing.old (λ fields parts. gap item.now.joined ++ (written_by fields parts (content items.now item.now.part) ++ rest fields parts)) whole → GoesOn table.new.strings.items growing.new rest whole) }
{
    if !item.joined {
        growing.text.push(b' ')?;
    }
    add_content(alloc, items, table, growing, &item.part)
}

// The segments of a syntax, by the items of the coding beside it.
fn segments_of(
    alloc: Global,
    table: &mut StringTable,
    items: &[CodingItem],
    shown: &[SyntaxItem],
) -> Result<Vec<Segment>, NoMemory>
    requires opened { AreOpened table.old }
    ensures opened { OnOk result (AreOpened table.new) }
    ensures longer { OnOk result (IsLonger table.old.strings.items table.new.strings.items) }
    ensures written { IfOk result (λ segments. IsWritten table.new.strings.items segments.items (shown_by items.now shown.now)) }
{
    let mut growing = Growing {
        segments: Vec::new(alloc),
        text: Vec::new(alloc),
    };
    if let [first, rest @ ..] = shown {
        add_content(alloc, items, table, &mut growing, &first.part)?;
        for item in rest {
            add_element(alloc, items, table, &mut growing, item)?;
        }
    }
    end_text(alloc, table, &mut growing)?;
    Ok(growing.segments)
}

impl Templates {
    /// What all operations write.
    pub(crate) fn make<N: Names>(alloc: Global, names: &N) -> Result<Templates, NoMemory>
        ensures { IfOk result (AreTemplates (N.tree names.now)) }
    {
        let mut table = StringTable {
            strings: Vec::new(alloc),
            shared: Vec::new(alloc),
        };
        let mut segments = Vec::new(alloc);
        for operation in 0..operation_count(names) {
            let (items, shown) = (
                coding_items(names, operation),
                syntax_items(names, operation),
            );
            segments.push(segments_of(alloc, &mut table, items, shown)?)?;
        }
        Ok(Templates { segments, table })
    }

    /// The segments of an operation.
    pub(crate) fn of_operation(&self, operation: usize) -> &[Segment]
        ensures { result.now ≡ segments_at self.now.segments.items operation }
    {
        if operation < self.segments.len() {
            &self.segments[operation]
        } else {
            &[]
        }
    }
}
