//! Queues of occurrences.

ghost use Rattle.std.specs.List.{AllByRecursion};
ghost use Rattle.std.specs.Prelude.{◌≡◌, ℕ, ◌+◌, ◌*◌, ◌/◌, ◌<◌, ◌≤◌, length, false, ◌&&◌, ◌||◌, nat_eq, slice_index, IfOk, vec_len};
ghost use Rattle.lisa_activation.specs.Columns.{IsBare};
ghost use Rattle.lisa_activation.specs.Queued.{bit_of, level_at, runs_at, AreQueuesFor, IsEmpty};

use crate::columns::Column;
use crate::kept::Queues;
use crate::placing::Placing;
use std::alloc::{AllocError, Global};

// So many columns in which nothing is.
#[tactic(auto, using(crate::proofs::Places::one_bare))]
fn bare_columns(alloc: Global, count: usize) -> Result<Vec<Column>, AllocError>
    ensures bare { IfOk result (λ columns. AllByRecursion IsBare columns.items) }
    ensures len { IfOk result (λ columns. vec_len columns ≡ count) }
{
    let mut columns = Vec::new(alloc);
    for _place in 0..count {
        columns.push(Column::bare())?;
    }
    Ok(columns)
}

// Says of an occurrence in which level it runs.
fn place_at(columns: &mut [Column], level: u8, number: usize)
    requires level { level ≤ 8 }
    requires number { number < 64 * length columns.old }
    ensures own { (stage other : ℕ) → stage < 8 → bit_of (λ column. slice_index column.own stage) columns.new other ≡ (bit_of (λ column. slice_index column.own stage) columns.old other || (nat_eq (stage + 1) level && nat_eq other number)) }
    ensures standing { (stage other : ℕ) → bit_of (λ column. slice_index column.standing stage) columns.new other ≡ bit_of (λ column. slice_index column.standing stage) columns.old other }
    ensures entered { (stage other : ℕ) → bit_of (λ column. slice_index column.entered stage) columns.new other ≡ bit_of (λ column. slice_index column.entered stage) columns.old other }
    ensures first { (other : ℕ) → bit_of (λ column. column.first) columns.new other ≡ bit_of (λ column. column.first) columns.old other }
{
    columns[number / 64].place(level, (number % 64) as u32);
}

fn level_of(placings: &[Placing], number: usize) -> u8
    requires { number < length placings.now }
    ensures is { result ≡ level_at placings.now number }
    ensures within { result ≤ 8 }
{
    placings[number].level
}

// Says of each occurrence in which level it runs, over columns in which nothing is.
fn place_all(columns: &mut [Column], placings: &[Placing])
    requires room { length placings.now ≤ 64 * length columns.old }
    requires bare { AllByRecursion IsBare columns.old }
    ensures own { (stage number : ℕ) → stage < 8 → bit_of (λ column. slice_index column.own stage) columns.new number ≡ runs_at placings.now stage number }
    ensures standing { (stage number : ℕ) → bit_of (λ column. slice_index column.standing stage) columns.new number ≡ false }
    ensures entered { (stage number : ℕ) → bit_of (λ column. slice_index column.entered stage) columns.new number ≡ false }
    ensures first { (number : ℕ) → bit_of (λ column. column.first) columns.new number ≡ false }
{
    for number in 0..placings.len() {
        let level = level_of(placings, number);
        place_at(columns, level, number);
    }
}

impl Queues {
    /// Queues of occurrences with these placings, in order of their numbers, in which nothing stands and nothing was recorded. The memory is
    /// taken here, once.
    pub fn make(alloc: Global, placings: &[Placing]) -> Result<Queues, AllocError>
        requires { length placings.now ≤ 4096 }
        ensures tables { IfOk result (λ queues. AreQueuesFor placings.now queues) }
        ensures empty { IfOk result (λ queues. IsEmpty queues) }
    {
        let mut columns = bare_columns(alloc, placings.len() / 64 + 1)?;
        place_all(&mut columns, placings);
        let placings = Vec::from_slice(alloc, placings)?;
        Ok(Queues { columns, placings })
    }
}
