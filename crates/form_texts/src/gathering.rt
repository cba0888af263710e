//! The pieces of a text and the order of its numbers, from its symbols.

ghost use Rattle.std.specs.Prelude.{◌≡◌, ◌<◌, ◌++◌, ◌∷◌, ℕ, List, [], length, map, take, if◌then◌else◌, IfOk, OnOk};
ghost use Rattle.std.specs.Global.{Vec};
ghost use Rattle.std.specs.List.{flat_map};
ghost use Rattle.std.specs.Option.{option_to_list};
ghost use Rattle.asm_source.specs.Bytes.{is_word};
ghost use Rattle.instruction_texts.specs.declared.shapes.Shape.TheVariants.{Other};
ghost use Rattle.instruction_texts.specs.declared.shapes.Shape.{Shape as AnyShape};
ghost use Rattle.instruction_texts.specs.Symbols.{Sym, gather, shown_values};
ghost use Rattle.text_tables.specs.Parts.{text_pieces};
ghost use Rattle.text_tables.specs.Shared.{shapes_at};
ghost use Rattle.form_texts.specs.Strings.{symbols_of, field_number, AreOpened};
ghost use Rattle.form_texts.specs.declared.strings.Strings.{Strings as AnyStrings};
ghost use Rattle.form_texts.specs.Pieces.{ended, number_shape, pieces_at, run_at};

use crate::strings::{StringTable, Strings, kept};
use crate::symbols::{Symbol, field_number, strings_number};
use instruction_texts::Shape;
use lisa_tree::Format;
use lisa_words::{Name, NoMemory};
use std::alloc::Global;
use std::mem;
use text_tables::Part;

// The pieces so far, and the run behind them, which may go on.
#[derive(Drop)]
pub(crate) struct Pieces {
    pub shapes: Vec<Shape>,
    pub run: Vec<u8>,
}

/// Whether a byte is a word character: a letter, a digit, `_` or `.`.
pub(crate) fn is_word(byte: u8) -> bool
    ensures { result ≡ is_word byte }
{
    byte >= b'A' && byte <= b'Z'
        || byte >= b'a' && byte <= b'z'
        || byte == b'_'
        || byte >= b'0' && byte <= b'9'
        || byte == b'.'
}

// Takes the run, so that the next one is empty.
fn take_run(alloc: Global, pieces: &mut Pieces) -> Name
    ensures run { result ≡ pieces.old.run.items }
    ensures empty { pieces.new.run.items ≡ [] }
    ensures shapes { pieces.new.shapes.items ≡ pieces.old.shapes.items }
{
    Name::from_vec(mem::replace(&mut pieces.run, Vec::new(alloc)))
}

fn end_run(alloc: Global, pieces: &mut Pieces) -> Result<(), NoMemory>
    ensures empty { OnOk result (pieces.new.run.items ≡ []) }
    ensures shapes { OnOk result (pieces.new.shapes.items ≡ pieces.old.shapes.items ++ ended pieces.old.run.items) }
{
    if !pieces.run.is_empty() {
        let run = take_run(alloc, pieces);
        pieces.shapes.push(Shape::Literal(run))?;
    }
    Ok(())
}

fn add_byte(alloc: Global, pieces: &mut Pieces, byte: u8) -> Result<(), NoMemory>
    ensures run { OnOk result (pieces.new.run.items ≡ (if is_word byte then pieces.old.run.items ++ byte ∷ [] else [])) }
    ensures shapes { OnOk result (pieces.new.shapes.items ≡ pieces.old.shapes.items ++ (if is_word byte then [] else ended pieces.old.run.items ++ Other byte ∷ [])) }
{
    if is_word(byte) {
        pieces.run.push(byte)?;
    } else {
        end_run(alloc, pieces)?;
        pieces.shapes.push(Shape::Other(byte))?;
    }
    Ok(())
}

fn number_shape(format: Format, prefix: Name, width: u32) -> Shape
    ensures { result ≡ number_shape format prefix width }
{
    match format {
        Format::Decimal => Shape::Unsigned {
            hex: false,
            prefix,
            width,
        },
        Format::Hexadecimal => Shape::Unsigned {
            hex: true,
            prefix,
            width,
        },
        Format::SignedDecimal => Shape::Signed { prefix, width },
    }
}

pub(crate) fn add_symbol(alloc: Global, pieces: &mut Pieces, symbol: Symbol) -> Result<(), NoMemory>
    ensures run { OnOk result (pieces.new.run.items ≡ run_at pieces.old.run.items symbol) }
    ensures shapes { OnOk result (pieces.new.shapes.items ≡ pieces.old.shapes.items ++ pieces_at pieces.old.run.items symbol) }
{
    match symbol {
        Symbol::Gap => end_run(alloc, pieces),
        Symbol::Byte(byte) => add_byte(alloc, pieces, byte),
        Symbol::Number { format, width, .. } => {
            let prefix = take_run(alloc, pieces);
            pieces.shapes.push(number_shape(format, prefix, width))?;
            Ok(())
        }
        Symbol::Strings(_) => Ok(()),
    }
}

// The parts of a text so far, and the pieces behind them.
#[derive(Drop)]
struct Growing {
    parts: Vec<Part>,
    pieces: Pieces,
}

// Makes a part of the pieces so far, but for the run.
fn end_part(alloc: Global, growing: &mut Growing) -> Result<(), NoMemory>
    ensures parts { OnOk result ((shared : List (Vec AnyShape)) → text_pieces shared growing.new.parts.items ≡ text_pieces shared growing.old.parts.items ++ growing.old.pieces.shapes.items) }
    ensures shapes { OnOk result (growing.new.pieces.shapes.items ≡ []) }
    ensures run { OnOk result (growing.new.pieces.run.items ≡ growing.old.pieces.run.items) }
{
    let own = mem::replace(&mut growing.pieces.shapes, Vec::new(alloc));
    growing.parts.push(Part::Own(own))?;
    Ok(())
}

// Adds strings that are kept.
fn add_strings(
    alloc: Global,
    growing: &mut Growing,
    strings: &Strings,
    number: usize,
) -> Result<(), NoMemory>
    requires head { strings.now.head < length strings.now.text.items }
    ensures parts { OnOk result ((shared : List (Vec AnyShape)) → text_pieces shared growing.new.parts.items ≡ text_pieces shared growing.old.parts.items ++ (growing.old.pieces.shapes.items ++ (ended (growing.old.pieces.run.items ++ take strings.now.head strings.now.text.items) ++ shapes_at (map (λ v. v.items) shared) number))) }
    ensures shapes { OnOk result (growing.new.pieces.shapes.items ≡ []) }
    ensures run { OnOk result (growing.new.pieces.run.items ≡ strings.now.run.items) }
{
    growing
        .pieces
        .run
        .extend_from_slice(&strings.text[..strings.head])?;
    end_run(alloc, &mut growing.pieces)?;
    end_part(alloc, growing)?;
    growing.parts.push(Part::Shared(number))?;
    growing.pieces.run.extend_from_slice(&strings.run)?;
    Ok(())
}

fn grow(
    alloc: Global,
    table: &StringTable,
    growing: &mut Growing,
    symbol: Symbol,
) -> Result<(), NoMemory>
    requires opened { AreOpened table.now }
    ensures { OnOk result ((rest : List (Sym ℕ)) → text_pieces table.now.shared.items growing.new.parts.items ++ (growing.new.pieces.shapes.items ++ gather growing.new.pieces.run.items rest) ≡ text_pieces table.now.shared.items growing.old.parts.items ++ (growing.old.pieces.shapes.items ++ gather growing.old.pieces.run.items (symbols_of table.now.strings.items symbol ++ rest))) }
{
    let Some(number) = strings_number(symbol) else {
        return add_symbol(alloc, &mut growing.pieces, symbol);
    };
    match kept(&table.strings, number) {
        Some(strings) => add_strings(alloc, growing, strings, number),
        None => Ok(()),
    }
}

/// The pieces of a text in parts.
pub(crate) fn parts(
    alloc: Global,
    table: &StringTable,
    symbols: &[Symbol],
) -> Result<Vec<Part>, NoMemory>
    requires opened { AreOpened table.now }
    ensures { IfOk result (λ parts. text_pieces table.now.shared.items parts.items ≡ gather [] (flat_map (symbols_of table.now.strings.items) symbols.now)) }
{
    let mut growing = Growing {
        parts: Vec::new(alloc),
        pieces: Pieces {
            shapes: Vec::new(alloc),
            run: Vec::new(alloc),
        },
    };
    for &symbol in symbols {
        grow(alloc, table, &mut growing, symbol)?;
    }
    end_run(alloc, &mut growing.pieces)?;
    end_part(alloc, &mut growing)?;
    Ok(growing.parts)
}

// Adds the field whose number a symbol is, where it is one.
fn add_field(order: &mut Vec<u32>, symbol: Symbol) -> Result<(), NoMemory>
    ensures { OnOk result (order.new.items ≡ order.old.items ++ option_to_list (field_number symbol)) }
{
    if let Some(field) = field_number(symbol) {
        order.push(field)?;
    }
    Ok(())
}

/// The fields in the order of the text.
pub(crate) fn order(alloc: Global, symbols: &[Symbol]) -> Result<Vec<u32>, NoMemory>
    ensures { IfOk result (λ order. (strings : List AnyStrings) → order.items ≡ shown_values (flat_map (symbols_of strings) symbols.now)) }
{
    let mut order = Vec::new(alloc);
    for &symbol in symbols {
        add_field(&mut order, symbol)?;
    }
    Ok(order)
}
