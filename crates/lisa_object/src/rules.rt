// The rules for a line of an object behind others.
ghost use Rattle.std.specs.Prelude.{◌≡◌, ◌+◌, ◌≤◌, ◌<◌, ◌^◌, pos, ◌≤ℤ◌, unsigned_abs};
ghost use Rattle.asm_source.specs.Plain.{sum_tree};
ghost use Rattle.lisa_object.specs.Objects.{Fix, object_line_tree};
ghost use Rattle.lisa_object.specs.ObjectRules.{is_within, fits_kind, is_clear, is_sum};
ghost use Rattle.lisa_object.specs.LineMachine.{may_follow, after};

use crate::parts::{FixKind, ObjectLine};
use crate::words::fits;
use asm_source::Sum;

/// What stands before a line of an object.
#[derive(Clone, Copy, Debug)]
pub struct Standing {
    /// How wide the section's cells are, 0 before any section.
    pub width: u32,
    /// The cell directly before, whose fixes may follow.
    pub cell: u64,
    /// The bit below which a further fix must lie, 0 where there is no such cell.
    pub below: u32,
}

fn is_within(most: i128, value: i128) -> bool
    requires { pos 0 ≤ℤ most }
    ensures { result ≡ is_within (unsigned_abs most) value }
{
    value >= -most && value <= most
}

fn fits_kind(section: u32, kind: FixKind, lsb: u32, width: u32) -> bool
    ensures { result ≡ fits_kind section kind lsb width }
{
    match kind {
        FixKind::Whole => lsb == 0 && width == section,
        _ => true,
    }
}

// The bits are 0 in the cell.
fn is_clear(cell: u64, lsb: u32, width: u32) -> bool
    requires { lsb + width ≤ 64 }
    ensures { result ≡ is_clear cell lsb width }
{
    (u128::from(cell) >> lsb) % (1u128 << width) == 0
}

fn is_sum(sum: &Sum) -> bool
    ensures { result ≡ is_sum (sum_tree sum.now) }
{
    is_within(147_573_952_589_676_412_920, sum.constant) && sum.terms.len() <= 8
}

fn fix_may_follow(standing: Standing, lsb: u32, width: u32, kind: FixKind, sum: &Sum) -> bool
    requires { standing.below ≤ 64 }
    ensures { result ≡ may_follow standing (Fix lsb width kind (sum_tree sum.now)) }
{
    width >= 1
        && lsb <= 64
        && width <= 64
        && lsb + width <= standing.below
        && is_clear(standing.cell, lsb, width)
        && fits_kind(standing.width, kind, lsb, width)
        && is_sum(sum)
}

/// Whether the line may stand there.
pub fn may_follow(standing: Standing, line: &ObjectLine) -> bool
    requires wide { standing.width ≤ 64 }
    requires below { standing.below ≤ 64 }
    ensures { result ≡ may_follow standing (object_line_tree line.now) }
{
    match line {
        ObjectLine::Section(_, width) => *width >= 1 && *width <= 64,
        ObjectLine::Space(count) => standing.width > 0 && *count <= 1_048_576,
        ObjectLine::Label(_) => standing.width > 0,
        ObjectLine::Equ(_, value) => is_within(18_446_744_073_709_551_615, *value),
        ObjectLine::Global(_) => true,
        ObjectLine::Cell(value) => standing.width > 0 && fits(*value, standing.width),
        ObjectLine::Fix {
            lsb,
            width,
            kind,
            sum,
        } => fix_may_follow(standing, *lsb, *width, *kind, sum),
    }
}

/// What stands before the next line.
pub fn after(standing: Standing, line: &ObjectLine) -> Standing
    ensures { result ≡ after standing (object_line_tree line.now) }
{
    match line {
        ObjectLine::Section(_, width) => Standing {
            width: *width,
            cell: 0,
            below: 0,
        },
        ObjectLine::Cell(value) => Standing {
            width: standing.width,
            cell: *value,
            below: standing.width,
        },
        ObjectLine::Fix { lsb, .. } => Standing {
            width: standing.width,
            cell: standing.cell,
            below: *lsb,
        },
        _ => Standing {
            width: standing.width,
            cell: 0,
            below: 0,
        },
    }
}
