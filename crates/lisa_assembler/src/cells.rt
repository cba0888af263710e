// The cells of a `.word`.
ghost use Rattle.std.specs.Prelude.{◌≡◌, ◌⊎◌, ◌++◌, ◌∷◌, ◌↔◌, ◌≤◌, ◌^◌, pos, [], List, ℕ, All, IfErr, IsTrue, OnOk, map};
ghost use Rattle.lisa_words.specs.Words.{reduced};
ghost use Rattle.asm_source.specs.Plain.{sum_tree, value_tree};
ghost use Rattle.asm_source.specs.declared.flaw.SourceFault.TheVariants as faults;
ghost use Rattle.lisa_object.specs.Objects.{object_line_tree, Cell, Fix};
ghost use Rattle.lisa_object.specs.declared.parts.FixKind.TheVariants as kinds;
ghost use Rattle.lisa_assembler.specs.Faults.{IsRangeFault};
ghost use Rattle.lisa_assembler.specs.Sources.{FitsCell, IsInRange};
ghost use Rattle.lisa_assembler.specs.Cells.{value_lines, values_lines};

use crate::coded::copied;
use asm_source::{CellValue, SourceFault, Sum};
use lisa_object::{FixKind, ObjectLine};
use std::alloc::AllocError;

fn power(exponent: u32) -> i128
    requires { exponent ≤ 64 }
    ensures { result ≡ pos (2 ^ exponent) }
{
    (1u128 << exponent) as i128
}

// Whether a cell of this width takes the number.
fn is_in_range(width: u32, number: i128) -> bool
    requires some { 1 ≤ width }
    requires most { width ≤ 64 }
    ensures { IsTrue result ↔ IsInRange width number }
{
    0 - power(width - 1) <= number && number < power(width)
}

// The bits of a number that a cell takes.
fn bits_of(width: u32, number: i128) -> u64
    requires some { 1 ≤ width }
    requires most { width ≤ 64 }
    requires fits { IsInRange width number }
    ensures { result ≡ reduced number width }
{
    if number < 0 {
        (power(width) + number) as u64
    } else {
        number as u64
    }
}

// Adds the lines of a sum in a cell of this width.
fn push_sum(lines: &mut Vec<ObjectLine>, width: u32, sum: &Sum) -> Result<(), AllocError>
    ensures { OnOk result (map object_line_tree lines.new.items ≡ map object_line_tree lines.old.items ++ Cell 0 ∷ Fix 0 width kinds.Whole (sum_tree sum.now) ∷ []) }
{
    let sum = copied(sum)?;
    lines.push(ObjectLine::Cell(0))?;
    lines.push(ObjectLine::Fix {
        lsb: 0,
        width,
        kind: FixKind::Whole,
        sum,
    })?;
    Ok(())
}

// Adds the lines of a value.
fn push_value(lines: &mut Vec<ObjectLine>, width: u32, value: &CellValue) -> Result<(), AllocError>
    requires some { 1 ≤ width }
    requires most { width ≤ 64 }
    requires fits { FitsCell width (value_tree value.now) }
    ensures { OnOk result (map object_line_tree lines.new.items ≡ map object_line_tree lines.old.items ++ value_lines width (value_tree value.now)) }
{
    match value {
        CellValue::Number(number) => lines.push(ObjectLine::Cell(bits_of(width, *number)))?,
        CellValue::Sum(sum) => push_sum(lines, width, sum)?,
    }
    Ok(())
}

// Refuses a number that no cell of this width takes.
fn check_value(line: u32, width: u32, value: &CellValue) -> Result<(), SourceFault>
    requires some { 1 ≤ width }
    requires most { width ≤ 64 }
    ensures fits { OnOk result (FitsCell width (value_tree value.now)) }
    ensures fault { IfErr result (λ f. IsRangeFault line width (value_tree value.now ∷ []) f) }
{
    match value {
        CellValue::Number(number) => {
            if is_in_range(width, *number) {
                return Ok(());
            }
            Err(SourceFault::FieldRange {
                line,
                value: *number,
                width,
            })
        }
        CellValue::Sum(_) => Ok(()),
    }
}

/// Adds the lines of the values of a `.word`, or refuses the first number that doesn't fit its cell.
pub(crate) fn push_values(
    lines: &mut Vec<ObjectLine>,
    line: u32,
    width: u32,
    values: &[CellValue],
) -> Result<(), SourceFault>
    requires some { 1 ≤ width }
    requires most { width ≤ 64 }
    ensures fits { OnOk result (All (FitsCell width) (map value_tree values.now)) }
    ensures added { OnOk result (map object_line_tree lines.new.items ≡ map object_line_tree lines.old.items ++ values_lines width (map value_tree values.now)) }
    ensures fault { IfErr result (λ f. (f ≡ faults.NoMemory) ⊎ IsRangeFault line width (map value_tree values.now) f) }
{
    for value in values {
        check_value(line, width, value)?;
        push_value(lines, width, value)?;
    }
    Ok(())
}
