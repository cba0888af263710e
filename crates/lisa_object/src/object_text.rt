// The text of an object.
ghost use Rattle.std.specs.Prelude.{◌≡◌, ◌++◌, ◌∷◌, [], ◌<◌, ◌^◌, codes, OnOk, IfOk, map, decimal, if◌then◌else◌};
ghost use Rattle.std.specs.Fmt.{signed_decimal};
ghost use Rattle.asm_source.specs.Plain.{sum_tree};
ghost use Rattle.lisa_object.specs.Objects.{Section, Space, Equ, Cell, Fix, object_line_tree, object_tree};
ghost use Rattle.lisa_object.specs.ObjectText.{kind_word, symbol_word, term_word, line_words, object_head, object_text};
ghost use Rattle.lisa_object.specs.ObjectPieces.{behind_blanks, line_text};
ghost use Rattle.lisa_object.specs.Texts.{line_of, text_of};

use crate::parts::{FixKind, Object, ObjectLine};
use crate::printing::{put, put_decimal, put_digest, put_hex};
use asm_source::{Sum, Term};
use lisa_words::{Name, NoMemory};
use std::alloc::{AllocError, Global};

// A decimal number of any size.
fn put_wide(out: &mut Vec<u8>, value: u128) -> Result<(), AllocError>
    ensures { OnOk result (out.new.items ≡ out.old.items ++ decimal value) }
{
    if value < 10 {
        return put(out, &[48 + value as u8]);
    }
    put_wide(out, value / 10)?;
    put(out, &[48 + (value % 10) as u8])
}

// An integer, with `-` before a negative one.
fn put_integer(out: &mut Vec<u8>, value: i128) -> Result<(), AllocError>
    ensures { OnOk result (out.new.items ≡ out.old.items ++ signed_decimal value) }
{
    if value >= 0 {
        return put_wide(out, value.unsigned_abs());
    }
    put(out, b"-")?;
    put_wide(out, value.unsigned_abs())
}

fn put_symbol(out: &mut Vec<u8>, name: &Option<Name>) -> Result<(), AllocError>
    ensures { OnOk result (out.new.items ≡ out.old.items ++ symbol_word name.now) }
{
    match name {
        Some(name) => put(out, name.as_bytes()),
        None => put(out, b"$"),
    }
}

fn sign(minus: bool) -> u8
    ensures { result ≡ (if minus then 45 else 43) }
{
    if minus { 45 } else { 43 }
}

// A blank and a term.
fn put_term(out: &mut Vec<u8>, term: &Term) -> Result<(), AllocError>
    ensures { OnOk result (out.new.items ≡ out.old.items ++ 32 ∷ term_word term.now) }
{
    put(out, &[32, sign(term.minus)])?;
    put_symbol(out, &term.name)
}

// A blank before each term.
fn put_terms(out: &mut Vec<u8>, terms: &[Term]) -> Result<(), AllocError>
    ensures { OnOk result (out.new.items ≡ out.old.items ++ behind_blanks (map term_word terms.now)) }
{
    for term in terms {
        put_term(out, term)?;
    }
    Ok(())
}

fn letter(kind: FixKind) -> u8
    ensures { result ∷ [] ≡ kind_word kind }
{
    match kind {
        FixKind::Unsigned => b'u',
        FixKind::Signed => b's',
        FixKind::Whole => b'w',
    }
}

// A keyword with the blank behind it, and a word.
fn put_named(out: &mut Vec<u8>, keyword: &[u8], name: &Name) -> Result<(), AllocError>
    ensures { OnOk result (out.new.items ≡ out.old.items ++ (keyword.now ++ name.now)) }
{
    put(out, keyword)?;
    put(out, name.as_bytes())
}

fn put_section(out: &mut Vec<u8>, name: &Name, width: u32) -> Result<(), AllocError>
    ensures { OnOk result (out.new.items ≡ out.old.items ++ line_of (line_words (Section name.now width))) }
{
    put_named(out, b"section ", name)?;
    put(out, b" ")?;
    put_decimal(out, width as u64)
}

fn put_space(out: &mut Vec<u8>, count: u32) -> Result<(), AllocError>
    ensures { OnOk result (out.new.items ≡ out.old.items ++ line_of (line_words (Space count))) }
{
    put(out, b"space ")?;
    put_decimal(out, count as u64)
}

fn put_equ(out: &mut Vec<u8>, name: &Name, value: i128) -> Result<(), AllocError>
    ensures { OnOk result (out.new.items ≡ out.old.items ++ line_of (line_words (Equ name.now value))) }
{
    put_named(out, b"equ ", name)?;
    put(out, b" ")?;
    put_integer(out, value)
}

fn put_cell(out: &mut Vec<u8>, value: u64) -> Result<(), AllocError>
    ensures { OnOk result (out.new.items ≡ out.old.items ++ line_of (line_words (Cell value))) }
{
    put(out, b"cell ")?;
    put_hex(out, value)
}

fn put_field(out: &mut Vec<u8>, lsb: u32, width: u32, kind: FixKind) -> Result<(), AllocError>
    ensures { OnOk result (out.new.items ≡ out.old.items ++ (decimal lsb ++ (codes " " ++ (decimal width ++ (32 ∷ (kind_word kind ++ codes " ")))))) }
{
    put_decimal(out, lsb as u64)?;
    put(out, b" ")?;
    put_decimal(out, width as u64)?;
    put(out, &[32, letter(kind), 32])
}

fn put_sum(out: &mut Vec<u8>, sum: &Sum) -> Result<(), AllocError>
    ensures { OnOk result (out.new.items ≡ out.old.items ++ (signed_decimal sum.now.constant ++ behind_blanks (map term_word sum.now.terms.items))) }
{
    put_integer(out, sum.constant)?;
    put_terms(out, &sum.terms)
}

fn put_fix(
    out: &mut Vec<u8>,
    lsb: u32,
    width: u32,
    kind: FixKind,
    sum: &Sum,
) -> Result<(), AllocError>
    ensures { OnOk result (out.new.items ≡ out.old.items ++ line_of (line_words (Fix lsb width kind (sum_tree sum.now)))) }
{
    put(out, b"fix ")?;
    put_field(out, lsb, width, kind)?;
    put_sum(out, sum)
}

fn put_words(out: &mut Vec<u8>, line: &ObjectLine) -> Result<(), AllocError>
    ensures { OnOk result (out.new.items ≡ out.old.items ++ line_of (line_words (object_line_tree line.now))) }
{
    match line {
        ObjectLine::Section(name, width) => put_section(out, name, *width),
        ObjectLine::Space(count) => put_space(out, *count),
        ObjectLine::Label(name) => put_named(out, b"label ", name),
        ObjectLine::Equ(name, value) => put_equ(out, name, *value),
        ObjectLine::Global(name) => put_named(out, b"global ", name),
        ObjectLine::Cell(value) => put_cell(out, *value),
        ObjectLine::Fix {
            lsb,
            width,
            kind,
            sum,
        } => put_fix(out, *lsb, *width, *kind, sum),
    }
}

fn put_line(out: &mut Vec<u8>, line: &ObjectLine) -> Result<(), AllocError>
    ensures { OnOk result (out.new.items ≡ out.old.items ++ (line_of (line_words (object_line_tree line.now)) ++ 10 ∷ [])) }
{
    put_words(out, line)?;
    put(out, b"\n")
}

fn put_lines(out: &mut Vec<u8>, lines: &[ObjectLine]) -> Result<(), AllocError>
    ensures { OnOk result (out.new.items ≡ out.old.items ++ text_of (map line_text lines.now)) }
{
    for line in lines {
        put_line(out, line)?;
    }
    Ok(())
}

fn put_object_head(out: &mut Vec<u8>, digest: &[u8]) -> Result<(), AllocError>
    ensures { OnOk result (out.new.items ≡ out.old.items ++ (object_head digest.now ++ 10 ∷ [])) }
{
    put(out, b"object 1 ")?;
    put_digest(out, digest)?;
    put(out, b"\n")
}

fn put_object(out: &mut Vec<u8>, object: &Object) -> Result<(), AllocError>
    ensures { OnOk result (out.new.items ≡ out.old.items ++ ((object_head object.now.digest ++ 10 ∷ []) ++ (text_of (map line_text object.now.lines.items) ++ (codes "end" ++ 10 ∷ [])))) }
{
    put_object_head(out, &object.digest)?;
    put_lines(out, &object.lines)?;
    put(out, b"end\n")
}

/// The one spelling of an object.
pub fn print_object(alloc: Global, object: &Object) -> Result<Vec<u8>, NoMemory>
    ensures { IfOk result (λ text. text.items ≡ object_text (object_tree object.now)) }
{
    let mut out = Vec::new(alloc);
    put_object(&mut out, object)?;
    Ok(out)
}
