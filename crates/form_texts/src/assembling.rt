//! What a form writes, segment by segment of its operation.

ghost use Rattle.std.specs.Prelude.{◌≡◌, ◌+◌, ◌++◌, ℕ, List, [], map, slice_index_or, IfOk, OnOk};
ghost use Rattle.std.specs.List.{flat_map};
ghost use Rattle.instruction_texts.specs.Symbols.{shown_at};
ghost use Rattle.form_texts.specs.Syntaxes.{kind_of};
ghost use Rattle.form_texts.specs.Strings.{symbols_of, part_of};
ghost use Rattle.form_texts.specs.Segments.{slot_symbols, segment_symbols, written_in};
ghost use Rattle.form_texts.specs.Written.{numbered_fields};
ghost use Rattle.form_texts.specs.declared.strings.Strings.{Strings as AnyStrings};

use crate::segments::{Segment, Slot};
use crate::symbols::Symbol;
use instruction_forms::Field;
use lisa_tree::Format;
use lisa_words::NoMemory;
use std::alloc::Global;

/// What a form has for itself: its fields, with the number of the first one, and what its children write.
#[derive(Drop)]
pub(crate) struct Source<'a> {
    pub first: u32,
    pub fields: &'a [Field],
    pub parts: &'a [Vec<Symbol>],
}

/// A number of 32 bits with others behind it. More fields than those count would want more memory than there is.
pub(crate) fn number_behind(number: u32, count: usize) -> Result<u32, NoMemory>
    ensures { IfOk result (λ sum. sum ≡ number + count) }
{
    if count > (u32::MAX - number) as usize {
        return Err(NoMemory);
    }
    Ok(number + count as u32)
}

impl<'a> Source<'a> {
    // Adds the number of the field at this place, if there is one.
    fn add_number(
        &self,
        symbols: &mut Vec<Symbol>,
        place: usize,
        format: Format,
    ) -> Result<(), NoMemory>
        ensures { OnOk result ((all : List AnyStrings) → flat_map (symbols_of all) symbols.new.items ≡ flat_map (symbols_of all) symbols.old.items ++ shown_at (kind_of format) place (numbered_fields self.now.first self.now.fields.now)) }
    {
        if let Some(field) = self.fields.get(place) {
            symbols.push(Symbol::Number {
                format,
                width: field.width,
                field: number_behind(self.first, place)?,
            })?;
        }
        Ok(())
    }

    // Adds what the child at this place writes, if there is one.
    fn add_part(&self, symbols: &mut Vec<Symbol>, place: usize) -> Result<(), NoMemory>
        ensures { OnOk result ((all : List AnyStrings) → flat_map (symbols_of all) symbols.new.items ≡ flat_map (symbols_of all) symbols.old.items ++ slice_index_or (map (part_of all) self.now.parts.now) place []) }
    {
        if let Some(part) = self.parts.get(place) {
            symbols.extend_from_slice(part)?;
        }
        Ok(())
    }

    // Adds what stands in a slot.
    fn fill(&self, symbols: &mut Vec<Symbol>, slot: Slot) -> Result<(), NoMemory>
        ensures { OnOk result ((all : List AnyStrings) → flat_map (symbols_of all) symbols.new.items ≡ flat_map (symbols_of all) symbols.old.items ++ slot_symbols slot (numbered_fields self.now.first self.now.fields.now) (map (part_of all) self.now.parts.now)) }
    {
        match slot {
            Slot::Number(place, format) => self.add_number(symbols, place, format),
            Slot::Child(place) => self.add_part(symbols, place),
        }
    }

    fn add_segment(&self, symbols: &mut Vec<Symbol>, segment: Segment) -> Result<(), NoMemory>
        ensures { OnOk result ((all : List AnyStrings) → flat_map (symbols_of all) symbols.new.items ≡ flat_map (symbols_of all) symbols.old.items ++ segment_symbols all (numbered_fields self.now.first self.now.fields.now) (map (part_of all) self.now.parts.now) segment) }
    {
        match segment {
            Segment::Same(symbol) => {
                symbols.push(symbol)?;
                Ok(())
            }
            Segment::Open(slot) => self.fill(symbols, slot),
        }
    }
}

/// What a form writes by the segments of its operation.
pub(crate) fn assemble(
    alloc: Global,
    source: &Source<'_>,
    segments: &[Segment],
) -> Result<Vec<Symbol>, NoMemory>
    ensures { IfOk result (λ symbols. (all : List AnyStrings) → flat_map (symbols_of all) symbols.items ≡ written_in all segments.now (numbered_fields source.now.first source.now.fields.now) (map (part_of all) source.now.parts.now)) }
{
    let mut symbols = Vec::new(alloc);
    for &segment in segments {
        source.add_segment(&mut symbols, segment)?;
    }
    Ok(symbols)
}
