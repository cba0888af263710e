//! Counts that are known or not. From 2^64 - 1 on they stay there.

ghost use Rattle.std.specs.Prelude.{◌≡◌};
ghost use Rattle.least_fixed_points.specs.Settles.{entry};
ghost use Rattle.text_counts.specs.Sums.{plus, one_more, times, sum_of};

use description_types::known_operation;

/// Two counts together, where both are known.
pub(crate) fn plus(left: Option<u64>, right: Option<u64>) -> Option<u64>
    ensures { result ≡ plus left right }
{
    match (left, right) {
        (Some(left), Some(right)) => Some(left.saturating_add(right)),
        _ => None,
    }
}

pub(crate) fn one_more(count: Option<u64>) -> Option<u64>
    ensures { result ≡ one_more count }
{
    plus(Some(1), count)
}

/// A count, so many times.
pub(crate) fn times(factor: u64, count: Option<u64>) -> Option<u64>
    ensures { result ≡ times factor count }
{
    match count {
        None => None,
        Some(count) => Some(factor.saturating_mul(count)),
    }
}

/// The counts of some operations together, each with so much more.
pub(crate) fn sum_of(more: u64, table: &[Option<u64>], operations: &[usize]) -> Option<u64>
    ensures { result ≡ sum_of more (entry table.now) operations.now }
{
    let mut sum = Some(0);
    for &operation in operations {
        sum = plus(sum, plus(Some(more), known_operation(table, operation)));
    }
    sum
}
