// A line of an object, from its words.
ghost use Rattle.std.specs.Prelude.{◌≡◌, option_map};
ghost use Rattle.std.specs.Option.{option_copied};
ghost use Rattle.text_lines.specs.Cuts.{parts_behind};
ghost use Rattle.lisa_object.specs.Objects.{object_line_tree};
ghost use Rattle.lisa_object.specs.ObjectReading.{one_of, two_of, name_of, section_of, space_of, label_of, global_of, equ_of, cell_of, kind_of, symbol_of, term_of, terms_of, fix_head, fix_of, line_from, line_at};
ghost use Rattle.lisa_object.specs.Gives.{Gives};

use crate::faults::Stop;
use crate::integers::integer_word;
use crate::parts::{FixKind, ObjectLine};
use crate::words::{first_word, hex_word, is_done, small_word};
use asm_source::{Sum, Term, is_name};
use lisa_words::Name;
use std::alloc::Global;
use text_lines::cut;

fn one_word(left: Option<&[u8]>) -> Option<&[u8]>
    ensures { option_copied result ≡ one_of (parts_behind 32 (option_copied left.entry)) }
{
    let (word, left) = first_word(left)?;
    if is_done(left) { Some(word) } else { None }
}

fn two_words(left: Option<&[u8]>) -> Option<(&[u8], &[u8])>
    ensures { option_map (λ x. (x.0.now, x.1.now)) result ≡ two_of (parts_behind 32 (option_copied left.entry)) }
{
    let (first, left) = first_word(left)?;
    let (second, left) = first_word(left)?;
    if is_done(left) {
        Some((first, second))
    } else {
        None
    }
}

fn name_word(alloc: Global, place: usize, word: &[u8]) -> Result<Name, Stop>
    ensures { Gives (λ n. n) result (name_of word.now) }
{
    if is_name(word) {
        Ok(Name::from_bytes(alloc, word)?)
    } else {
        Err(Stop::Misspelled { left: place })
    }
}

#[tactic(auto, unfolding(crate::specs::ObjectReading::section_of))]
fn section(alloc: Global, place: usize, left: Option<&[u8]>) -> Result<ObjectLine, Stop>
    ensures { Gives object_line_tree result (section_of (parts_behind 32 (option_copied left.entry))) }
{
    let Some((name, width)) = two_words(left) else {
        return Err(Stop::Misspelled { left: place });
    };
    let Some(width) = small_word(width) else {
        return Err(Stop::Misspelled { left: place });
    };
    Ok(ObjectLine::Section(name_word(alloc, place, name)?, width))
}

#[tactic(auto, unfolding(crate::specs::ObjectReading::space_of))]
fn space(left: Option<&[u8]>) -> Option<ObjectLine>
    ensures { option_map object_line_tree result ≡ space_of (parts_behind 32 (option_copied left.entry)) }
{
    Some(ObjectLine::Space(small_word(one_word(left)?)?))
}

#[tactic(auto, unfolding(crate::specs::ObjectReading::cell_of))]
fn cell(left: Option<&[u8]>) -> Option<ObjectLine>
    ensures { option_map object_line_tree result ≡ cell_of (parts_behind 32 (option_copied left.entry)) }
{
    Some(ObjectLine::Cell(hex_word(one_word(left)?)?))
}

#[tactic(auto, unfolding(crate::specs::ObjectReading::label_of))]
fn label(alloc: Global, place: usize, left: Option<&[u8]>) -> Result<ObjectLine, Stop>
    ensures { Gives object_line_tree result (label_of (parts_behind 32 (option_copied left.entry))) }
{
    let Some(name) = one_word(left) else {
        return Err(Stop::Misspelled { left: place });
    };
    Ok(ObjectLine::Label(name_word(alloc, place, name)?))
}

#[tactic(auto, unfolding(crate::specs::ObjectReading::global_of))]
fn global(alloc: Global, place: usize, left: Option<&[u8]>) -> Result<ObjectLine, Stop>
    ensures { Gives object_line_tree result (global_of (parts_behind 32 (option_copied left.entry))) }
{
    let Some(name) = one_word(left) else {
        return Err(Stop::Misspelled { left: place });
    };
    Ok(ObjectLine::Global(name_word(alloc, place, name)?))
}

#[tactic(auto, unfolding(crate::specs::ObjectReading::equ_of))]
fn equ(alloc: Global, place: usize, left: Option<&[u8]>) -> Result<ObjectLine, Stop>
    ensures { Gives object_line_tree result (equ_of (parts_behind 32 (option_copied left.entry))) }
{
    let Some((name, value)) = two_words(left) else {
        return Err(Stop::Misspelled { left: place });
    };
    let Some(value) = integer_word(value) else {
        return Err(Stop::Misspelled { left: place });
    };
    Ok(ObjectLine::Equ(name_word(alloc, place, name)?, value))
}

fn kind(word: &[u8]) -> Option<FixKind>
    ensures { result ≡ kind_of word.now }
{
    if word == b"u".as_slice() {
        return Some(FixKind::Unsigned);
    }
    if word == b"s".as_slice() {
        return Some(FixKind::Signed);
    }
    if word == b"w".as_slice() {
        return Some(FixKind::Whole);
    }
    None
}

fn symbol(alloc: Global, place: usize, word: &[u8]) -> Result<Option<Name>, Stop>
    ensures { Gives (λ s. s) result (symbol_of word.now) }
{
    if word == b"$".as_slice() {
        return Ok(None);
    }
    Ok(Some(name_word(alloc, place, word)?))
}

#[tactic(auto, unfolding(crate::specs::ObjectReading::term_of))]
fn term(alloc: Global, place: usize, word: &[u8]) -> Result<Term, Stop>
    ensures { Gives (λ t. t) result (term_of word.now) }
{
    match word {
        [b'+', rest @ ..] => Ok(Term {
            minus: false,
            name: symbol(alloc, place, rest)?,
        }),
        [b'-', rest @ ..] => Ok(Term {
            minus: true,
            name: symbol(alloc, place, rest)?,
        }),
        _ => Err(Stop::Misspelled { left: place }),
    }
}

fn terms(alloc: Global, place: usize, left: Option<&[u8]>) -> Result<Vec<Term>, Stop>
    ensures { Gives (λ v. v.items) result (terms_of (parts_behind 32 (option_copied left.entry))) }
{
    let mut all = Vec::new(alloc);
    let mut rest = left;
    'each: while let Some(text) = rest {
        let (word, behind) = cut(text, b' ');
        all.push(term(alloc, place, word)?)?;
        rest = behind;
    }
    Ok(all)
}

// The numbers of a fix, and the terms behind them.
fn fix_head(left: Option<&[u8]>) -> Option<(u32, u32, FixKind, i128, Option<&[u8]>)>
    ensures { option_map (λ x. (x.0, x.1, x.2, x.3, parts_behind 32 (option_copied x.4))) result ≡ fix_head (parts_behind 32 (option_copied left.entry)) }
{
    let (lsb, left) = first_word(left)?;
    let (width, left) = first_word(left)?;
    let (letter, left) = first_word(left)?;
    let (constant, left) = first_word(left)?;
    Some((
        small_word(lsb)?,
        small_word(width)?,
        kind(letter)?,
        integer_word(constant)?,
        left,
    ))
}

#[tactic(auto, unfolding(crate::specs::ObjectReading::fix_of))]
fn fix(alloc: Global, place: usize, left: Option<&[u8]>) -> Result<ObjectLine, Stop>
    ensures { Gives object_line_tree result (fix_of (parts_behind 32 (option_copied left.entry))) }
{
    let Some((lsb, width, kind, constant, left)) = fix_head(left) else {
        return Err(Stop::Misspelled { left: place });
    };
    let terms = terms(alloc, place, left)?;
    Ok(ObjectLine::Fix {
        lsb,
        width,
        kind,
        sum: Sum { constant, terms },
    })
}

fn or_misspelled(line: Option<ObjectLine>, place: usize) -> Result<ObjectLine, Stop>
    ensures { Gives object_line_tree result (option_map object_line_tree line) }
{
    line.ok_or(Stop::Misspelled { left: place })
}

fn line_from(
    alloc: Global,
    place: usize,
    keyword: &[u8],
    left: Option<&[u8]>,
) -> Result<ObjectLine, Stop>
    ensures { Gives object_line_tree result (line_from keyword.now (parts_behind 32 (option_copied left.entry))) }
{
    if keyword == b"section".as_slice() {
        return section(alloc, place, left);
    }
    if keyword == b"space".as_slice() {
        return or_misspelled(space(left), place);
    }
    if keyword == b"label".as_slice() {
        return label(alloc, place, left);
    }
    if keyword == b"equ".as_slice() {
        return equ(alloc, place, left);
    }
    if keyword == b"global".as_slice() {
        return global(alloc, place, left);
    }
    if keyword == b"cell".as_slice() {
        return or_misspelled(cell(left), place);
    }
    if keyword == b"fix".as_slice() {
        return fix(alloc, place, left);
    }
    Err(Stop::Misspelled { left: place })
}

// What a line says, where so many bytes are left from it on.
#[tactic(auto, unfolding(crate::specs::ObjectReading::line_at))]
pub fn line_at(alloc: Global, place: usize, line: &[u8]) -> Result<ObjectLine, Stop>
    ensures { Gives object_line_tree result (line_at line.now) }
{
    let Some((keyword, left)) = first_word(Some(line)) else {
        return Err(Stop::Misspelled { left: place });
    };
    line_from(alloc, place, keyword, left)
}
