//! How often operations are due, where the names that may choose them are used so many times.

ghost use Rattle.std.specs.Prelude.{◌≡◌, ◌<◌, ◌*◌, ℕ, List, IfOk, get_or, length, sum_by};
ghost use Rattle.access_counts.specs.Ledgers.{Gains, capped, worth};
ghost use Rattle.access_counts.specs.Rounds.{AreBelow, AllBelow};

use crate::ledger::zeros;
use lisa_words::NoMemory;
use std::alloc::Global;

/// What each declared name may choose.
pub trait Choices {
    /// The operations that a declared name may choose, by its number.
    ghost chosen: { Self → ℕ → List ℕ };

    fn chosen(&self, name: usize) -> &[usize]
        ensures { result.now ≡ chosen self.now name };
}

// Adds to the count of each of some operations.
fn add_all(counts: &mut Vec<u64>, operations: &[usize], times: u64)
    requires { AreBelow (length counts.old.items) operations.now }
    ensures length { length counts.new.items ≡ length counts.old.items }
    ensures more { (price : ℕ → ℕ) → Gains (worth price counts.old.items) (times * sum_by price operations.now) (worth price counts.new.items) }
{
    if times == 0 {
        return;
    }
    for &operation in operations {
        counts[operation] = counts[operation].saturating_add(times);
    }
}

/// How often each of so many operations is due, where declared names are used so many times.
pub(crate) fn due<C: Choices>(
    alloc: Global,
    choices: &C,
    count: usize,
    uses: &[u64],
) -> Result<Vec<u64>, NoMemory>
    requires { AllBelow count (C.chosen choices.now) }
    ensures length { IfOk result (λ due. length due.items ≡ count) }
    ensures same { IfOk result (λ due. (price : ℕ → ℕ) → capped (worth price due.items) ≡ capped (worth (λ i. sum_by price (C.chosen choices.now i)) uses.now)) }
{
    let mut due = zeros(alloc, count)?;
    for name in 0..uses.len() {
        add_all(&mut due, choices.chosen(name), uses[name]);
    }
    Ok(due)
}
