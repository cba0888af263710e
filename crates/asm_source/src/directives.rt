// Directives.
ghost use Rattle.std.specs.Prelude.{◌≡◌, ◌==◌, ◌&&◌, map, option_map};
ghost use Rattle.std.specs.List.{slice_split};
ghost use Rattle.asm_source.specs.Plain.{value_tree, part_tree};
ghost use Rattle.asm_source.specs.Parts.{signed_word, number_at, number_in, name_in, equ_of, space_of, cell_of, values_of, directive_of};
ghost use Rattle.asm_source.specs.Gives.{Gives, Takes};

use crate::bytes::{cut_word, is_name, is_spaces, skip_blanks};
use crate::flaw::Flaw;
use crate::numbers::{number, signed};
use crate::operands::operand_at;
use crate::parts::{CellValue, Part};
use lisa_words::Name;
use std::alloc::Global;
use text_lines::cut;

// A word as a number with this sign, and the text behind it.
fn signed_word(minus: bool, text: &[u8]) -> Option<(i128, &[u8])>
    ensures { option_map (λ x. (x.0, x.1.now)) result ≡ signed_word minus text.now }
{
    let (word, rest) = cut_word(text);
    let value = number(word)?;
    Some((signed(minus, value), rest))
}

fn number_at(text: &[u8]) -> Option<(i128, &[u8])>
    ensures { option_map (λ x. (x.0, x.1.now)) result ≡ number_at text.now }
{
    match text {
        [b'-', rest @ ..] => signed_word(true, rest),
        _ => signed_word(false, text),
    }
}

// The number that stands alone in a text.
#[tactic(auto, unfolding(crate::specs::Parts::number_in))]
fn number_in(text: &[u8]) -> Option<i128>
    ensures { result ≡ number_in text.now }
{
    let (value, rest) = number_at(skip_blanks(text))?;
    if is_spaces(rest) { Some(value) } else { None }
}

// The name that stands alone in a text.
#[tactic(auto, unfolding(crate::specs::Parts::name_in))]
fn name(alloc: Global, text: &[u8]) -> Result<Name, Flaw>
    ensures { Gives (λ n. n) result (name_in text.now) }
{
    let (word, rest) = cut_word(skip_blanks(text));
    if is_name(word) && is_spaces(rest) {
        Ok(Name::from_bytes(alloc, word)?)
    } else {
        Err(Flaw::BadLine)
    }
}

#[tactic(auto, unfolding(crate::specs::Parts::equ_of))]
fn equ(alloc: Global, text: &[u8]) -> Result<Part, Flaw>
    ensures { Gives part_tree result (equ_of text.now) }
{
    let (word, rest) = cut_word(skip_blanks(text));
    if !is_name(word) {
        return Err(Flaw::BadLine);
    }
    match number_in(rest) {
        Some(value) => Ok(Part::Equ(Name::from_bytes(alloc, word)?, value)),
        None => Err(Flaw::BadLine),
    }
}

#[tactic(auto, unfolding(crate::specs::Parts::space_of))]
fn space(text: &[u8]) -> Result<Part, Flaw>
    ensures { Gives part_tree result (space_of text.now) }
{
    let (word, rest) = cut_word(skip_blanks(text));
    match number(word) {
        Some(count) if count <= 1_048_576 && is_spaces(rest) => Ok(Part::Space(count as u32)),
        _ => Err(Flaw::BadLine),
    }
}

// The text as a value of a `.word`.
#[tactic(auto, unfolding(crate::specs::Parts::cell_of))]
fn cell(alloc: Global, text: &[u8]) -> Result<CellValue, Flaw>
    ensures { Gives value_tree result (cell_of text.now) }
{
    let text = skip_blanks(text);
    match text {
        [] => Err(Flaw::BadLine),
        [b'@', rest @ ..] => {
            let (sum, rest) = operand_at(alloc, rest)?;
            if is_spaces(rest) {
                Ok(CellValue::Sum(sum))
            } else {
                Err(Flaw::BadLine)
            }
        }
        _ => match number_in(text) {
            Some(value) => Ok(CellValue::Number(value)),
            None => Err(Flaw::BadLine),
        },
    }
}

// Takes the text as a value more, and answers whether its expression, if it has one, is good.
fn push_cell(alloc: Global, all: &mut Vec<CellValue>, text: &[u8]) -> Result<bool, Flaw>
    ensures { Takes result (map value_tree all.old.items) (map value_tree all.new.items) (cell_of text.now) }
{
    match cell(alloc, text) {
        Ok(value) => {
            all.push(value)?;
            Ok(true)
        }
        Err(Flaw::BadExpression) => Ok(false),
        Err(Flaw::BadLine) => Err(Flaw::BadLine),
        Err(Flaw::UnknownDirective) => Err(Flaw::UnknownDirective),
        Err(Flaw::NoMemory) => Err(Flaw::NoMemory),
    }
}

fn both(a: bool, b: bool) -> bool
    ensures { result ≡ (a && b) }
{
    a && b
}

// The values between commas.
fn cells(alloc: Global, text: &[u8]) -> Result<Vec<CellValue>, Flaw>
    ensures { Gives (λ v. map value_tree v.items) result (values_of (slice_split (λ b. b == 44) text.now)) }
{
    let mut all = Vec::new(alloc);
    let mut sound = true;
    let mut left = Some(text);
    'each: while let Some(text) = left {
        let (front, rest) = cut(text, b',');
        let good = push_cell(alloc, &mut all, front)?;
        sound = both(sound, good);
        left = rest;
    }
    if sound {
        Ok(all)
    } else {
        Err(Flaw::BadExpression)
    }
}

// The directive of this word.
#[tactic(auto, unfolding(crate::specs::Parts::directive_of))]
pub fn directive(alloc: Global, word: &[u8], text: &[u8]) -> Result<Part, Flaw>
    ensures { Gives part_tree result (directive_of word.now text.now) }
{
    if word == b".section".as_slice() {
        return Ok(Part::Section(name(alloc, text)?));
    }
    if word == b".global".as_slice() {
        return Ok(Part::Global(name(alloc, text)?));
    }
    if word == b".equ".as_slice() {
        return equ(alloc, text);
    }
    if word == b".word".as_slice() {
        return Ok(Part::Cells(cells(alloc, text)?));
    }
    if word == b".space".as_slice() {
        return space(text);
    }
    Err(Flaw::UnknownDirective)
}
