// The sums that stand for fields of an instruction.
ghost use Rattle.std.specs.Prelude.{◌≡◌, ◌≤◌, ◌++◌, ◌∷◌, IfOk, OnOk, length, map, take, drop};
ghost use Rattle.asm_source.specs.Plain.{sum_tree};
ghost use Rattle.instruction_texts.specs.Lines.{given};
ghost use Rattle.lisa_assembler.specs.Objects.{falling, fix_kind, known_value, put_falling};
ghost use Rattle.placed_programs.specs.Entries.{PlainFix};
ghost use Rattle.lisa_assembler.specs.Fixes.{fix_tree, bit_fixes, with_fix};

use crate::fields::FieldBits;
use asm_source::Sum;
use instruction_texts::Operand;
use lisa_object::FixKind;
use lisa_words::NoMemory;
use std::alloc::Global;

/// A sum whose value goes to bits of a cell.
#[derive(Drop)]
pub(crate) struct Fix {
    pub(crate) lsb: u32,
    pub(crate) width: u32,
    pub(crate) kind: FixKind,
    pub(crate) sum: Sum,
}

fn kind_of(signed: bool) -> FixKind
    ensures { result ≡ fix_kind signed }
{
    if signed {
        FixKind::Signed
    } else {
        FixKind::Unsigned
    }
}

// Where a fix with this lowest bit stands among others.
fn falling_place(fixes: &[Fix], lsb: u32) -> usize
    ensures within { result ≤ length fixes.now }
    ensures place { (f : PlainFix) → f.lsb ≡ lsb → put_falling f (map fix_tree fixes.now) ≡ map fix_tree (take result fixes.now) ++ f ∷ map fix_tree (drop result fixes.now) }
{
    for place in 0..fixes.len() {
        if fixes[place].lsb <= lsb {
            return place;
        }
    }
    fixes.len()
}

// Puts a fix before those with no higher lowest bit.
fn put_falling(fixes: &mut Vec<Fix>, fix: Fix) -> Result<(), NoMemory>
    ensures { OnOk result (map fix_tree fixes.new.items ≡ put_falling (fix_tree fix) (map fix_tree fixes.old.items)) }
{
    let place = falling_place(fixes, fix.lsb);
    fixes.insert(place, fix)?;
    Ok(())
}

// Puts the fix of what stands for a field to others, where it is a sum.
fn add_fix(fixes: &mut Vec<Fix>, field: &FieldBits, operand: &Operand<'_>) -> Result<(), NoMemory>
    ensures { OnOk result (map fix_tree fixes.new.items ≡ with_fix field.now (given operand.now) (map fix_tree fixes.old.items)) }
{
    match operand {
        Operand::Value(_) => Ok(()),
        Operand::Sum(sum) => {
            let fix = Fix {
                lsb: field.lsb,
                width: field.width,
                kind: kind_of(field.signed),
                sum: (*sum).clone()?,
            };
            put_falling(fixes, fix)
        }
    }
}

/// The fixes of the sums that stand for fields, by falling lowest bits.
pub(crate) fn fixes_of(
    alloc: Global,
    fields: &[FieldBits],
    operands: &[Operand<'_>],
) -> Result<Vec<Fix>, NoMemory>
    ensures { IfOk result (λ fixes. map fix_tree fixes.items ≡ falling (bit_fixes fields.now (map given operands.now))) }
{
    let [field, fields @ ..] = fields else {
        return Ok(Vec::new(alloc));
    };
    let [operand, operands @ ..] = operands else {
        return Ok(Vec::new(alloc));
    };
    let mut fixes = fixes_of(alloc, fields, operands)?;
    add_fix(&mut fixes, field, operand)?;
    Ok(fixes)
}

// The value of an operand, where a sum counts 0.
fn known_value(operand: &Operand<'_>) -> u64
    ensures { result ≡ known_value (given operand.now) }
{
    match operand {
        Operand::Value(value) => *value,
        Operand::Sum(_) => 0,
    }
}

/// The values of operands, where a sum counts 0.
pub(crate) fn known_values(alloc: Global, operands: &[Operand<'_>]) -> Result<Vec<u64>, NoMemory>
    ensures { IfOk result (λ values. values.items ≡ map known_value (map given operands.now)) }
{
    let mut values = Vec::new(alloc);
    for operand in operands {
        values.push(known_value(operand))?;
    }
    Ok(values)
}
