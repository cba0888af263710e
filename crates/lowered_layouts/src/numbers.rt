//! Numbers of temps and items. A number that is too large for its type is answered as want of memory: no machine has room for so many.

ghost use Rattle.std.specs.Prelude.{◌≡◌, ◌+◌, ◌*◌, IfOk};

use lisa_words::NoMemory;

/// A number of a temp or of an item.
pub(crate) fn number(count: usize) -> Result<u32, NoMemory>
    ensures { IfOk result (λ n. n ≡ count) }
{
    match u32::try_from(count) {
        Ok(number) => Ok(number),
        Err(_) => Err(NoMemory),
    }
}

/// The sum of two numbers.
pub(crate) fn sum(left: usize, right: usize) -> Result<usize, NoMemory>
    ensures { IfOk result (λ n. n ≡ left + right) }
{
    left.checked_add(right).ok_or(NoMemory)
}

/// The product of two numbers.
pub(crate) fn product(left: usize, right: usize) -> Result<usize, NoMemory>
    ensures { IfOk result (λ n. n ≡ left * right) }
{
    left.checked_mul(right).ok_or(NoMemory)
}
