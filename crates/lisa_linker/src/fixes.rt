// The fixes of cells.

ghost use Rattle.std.specs.Prelude.{◌≡◌, ◌⊎◌, ◌+◌, ◌<◌, ◌≤◌, ◌^◌, List, ℕ, None, Some, map, IfOk, IfErr, OnOk, IsTrue, true};
ghost use Rattle.asm_source.specs.Plain.{sum_tree};
ghost use Rattle.lisa_object.specs.declared.faults.LinkFault.TheVariants as faults;
ghost use Rattle.lisa_object.specs.Objects.{object_line_tree};
ghost use Rattle.lisa_object.specs.ObjectRules.{is_sum};
ghost use Rattle.placed_programs.specs.Entries.{front_fixes};
ghost use Rattle.placed_programs.specs.Placed.{fix_value};
ghost use Rattle.object_links.specs.Firsts.{first_of};
ghost use Rattle.object_links.specs.LinkFaults.{fix_fault};
ghost use Rattle.lisa_linker.specs.LineValues.{fixed, AreFixes};
ghost use Rattle.lisa_linker.specs.Tables.{HasShort, symbols_of};

use crate::ranges::{bits_of, in_range};
use crate::sums::{Values, sum_value};
use asm_source::Sum;
use lisa_object::{FixKind, LinkFault, ObjectLine};
use lisa_words::Name;

/// A value that doesn't fit its bits.
#[derive(Clone, Copy)]
pub(crate) struct Misfit {
    value: i128,
    width: u32,
}

// What a fix adds to its cell.
fn fix_amount(
    values: Values<'_>,
    address: u64,
    lsb: u32,
    width: u32,
    kind: FixKind,
    sum: &Sum,
) -> Result<u64, Misfit>
    requires short { HasShort values }
    requires some { 1 ≤ width }
    requires most { lsb + width ≤ 64 }
    requires sum { is_sum (sum_tree sum.now) ≡ true }
    ensures amount { IfOk result (λ v. v ≡ fix_value (symbols_of values.entry) address (record { lsb = lsb; width = width; kind = kind; sum = sum_tree sum.now })) }
    ensures fits { OnOk result ((number : ℕ) (memory : List ℕ) → fix_fault number (symbols_of values.entry) memory address (record { lsb = lsb; width = width; kind = kind; sum = sum_tree sum.now }) ≡ None) }
    ensures misfit { IfErr result (λ f. (number : ℕ) (memory : List ℕ) → fix_fault number (symbols_of values.entry) memory address (record { lsb = lsb; width = width; kind = kind; sum = sum_tree sum.now }) ≡ Some (faults.FieldRange number memory address f.value f.width)) }
{
    let value = sum_value(values, address, sum);
    if !in_range(kind, width, value) {
        return Err(Misfit { value, width });
    }
    Ok(bits_of(kind, width, value) * (1 << lsb))
}

/// The value of a cell with these bits and the fixes at the front of the lines.
#[tactic(auto, using(crate::proofs::FixBits::fixed_least))]
pub(crate) fn cell_value(
    values: Values<'_>,
    address: u64,
    bits: u64,
    lines: &[ObjectLine],
) -> Result<u64, Misfit>
    requires short { HasShort values }
    requires lines { AreFixes (map object_line_tree lines.now) }
    requires fits { fixed (symbols_of values) address bits (map object_line_tree lines.now) < 2 ^ 64 }
    ensures value { IfOk result (λ v. v ≡ fixed (symbols_of values.entry) address bits (map object_line_tree lines.now)) }
    ensures fits { OnOk result ((number : ℕ) (memory : List ℕ) → first_of (fix_fault number (symbols_of values.entry) memory address) (front_fixes (map object_line_tree lines.now)) ≡ None) }
    ensures misfit { IfErr result (λ f. (number : ℕ) (memory : List ℕ) → first_of (fix_fault number (symbols_of values.entry) memory address) (front_fixes (map object_line_tree lines.now)) ≡ Some (faults.FieldRange number memory address f.value f.width)) }
{
    let [line, rest @ ..] = lines else {
        return Ok(bits);
    };
    match line {
        ObjectLine::Fix {
            lsb,
            width,
            kind,
            sum,
        } => {
            let amount = fix_amount(values, address, *lsb, *width, *kind, sum)?;
            cell_value(values, address, bits + amount, rest)
        }
        _ => Ok(bits),
    }
}

/// The fault of a cell with a value that doesn't fit.
pub(crate) fn range_fault(number: u32, memory: &Name, address: u64, misfit: Misfit) -> LinkFault
    ensures { (result ≡ faults.NoMemory) ⊎ (result ≡ faults.FieldRange number memory.now address misfit.value misfit.width) }
{
    let Ok(memory) = memory.clone() else {
        return LinkFault::NoMemory;
    };
    LinkFault::FieldRange {
        object: number,
        memory,
        address,
        value: misfit.value,
        width: misfit.width,
    }
}
