//! What texts were found to do so far, and which names are still to be unfolded.

ghost use Rattle.std.specs.Prelude.{◌≡◌, ◌<◌, ◌*◌, ℕ, IfOk, IfSome, length};
ghost use Rattle.std.specs.Option.{option_map_or};
ghost use Rattle.access_counts.specs.Ledgers.{HasRoom, IsAdded, Gains, worth};

use lisa_tree::Names;
use lisa_words::{Name, NoMemory};
use std::alloc::Global;

/// Counts of what texts do. From 2^64 - 1 on each stays there.
#[derive(Drop)]
pub struct Ledger {
    /// For each resource, by its number, how often an element of it is read.
    pub reads: Vec<u64>,
    /// The same of elements that are written.
    pub writes: Vec<u64>,
    /// For each declared name, by its number, how often it is read.
    pub values: Vec<u64>,
    /// How often it is assigned.
    pub places: Vec<u64>,
    /// How often it is called.
    pub runs: Vec<u64>,
}

/// So many counts, all of them 0.
pub fn zeros(alloc: Global, count: usize) -> Result<Vec<u64>, NoMemory>
    ensures length { IfOk result (λ counts. length counts.items ≡ count) }
    ensures nothing { IfOk result (λ counts. (price : ℕ → ℕ) → worth price counts.items ≡ 0) }
{
    let counts = vec![in alloc; 0u64; count]?;
    Ok(counts)
}

// Adds to the count at a place, if there is one.
fn add(counts: &mut Vec<u64>, place: Option<usize>, times: u64)
    requires { IfSome place (λ k. k < length counts.old.items) }
    ensures length { length counts.new.items ≡ length counts.old.items }
    ensures more { (price : ℕ → ℕ) → Gains (worth price counts.old.items) (times * option_map_or price place 0) (worth price counts.new.items) }
{
    if let Some(place) = place {
        counts[place] = counts[place].saturating_add(times);
    }
}

/// Notes that an element of an array is read.
pub(crate) fn note_read<N: Names>(
    names: &N,
    operation: usize,
    times: u64,
    array: &Name,
    ledger: &mut Ledger,
)
    requires { HasRoom (N.tree names.now) ledger.old }
    ensures { IsAdded (N.tree names.now) operation ledger.old ledger.new times (λ a names. a.read array.now) }
{
    add(&mut ledger.reads, names.resource_at(array), times);
}

/// Notes that an element of an array is written.
pub(crate) fn note_write<N: Names>(
    names: &N,
    operation: usize,
    times: u64,
    array: &Name,
    ledger: &mut Ledger,
)
    requires { HasRoom (N.tree names.now) ledger.old }
    ensures { IsAdded (N.tree names.now) operation ledger.old ledger.new times (λ a names. a.write array.now) }
{
    add(&mut ledger.writes, names.resource_at(array), times);
}

/// Notes that a name is read.
pub(crate) fn note_name<N: Names>(
    names: &N,
    operation: usize,
    times: u64,
    name: &Name,
    ledger: &mut Ledger,
)
    requires { HasRoom (N.tree names.now) ledger.old }
    ensures { IsAdded (N.tree names.now) operation ledger.old ledger.new times (λ a names. names.read name.now) }
{
    add(
        &mut ledger.values,
        names.declared_at(operation, name),
        times,
    );
}

/// Notes that a name is assigned.
pub(crate) fn note_assigned<N: Names>(
    names: &N,
    operation: usize,
    times: u64,
    name: &Name,
    ledger: &mut Ledger,
)
    requires { HasRoom (N.tree names.now) ledger.old }
    ensures { IsAdded (N.tree names.now) operation ledger.old ledger.new times (λ a names. names.assigned name.now) }
{
    add(
        &mut ledger.places,
        names.declared_at(operation, name),
        times,
    );
}

/// Notes that a name is called.
pub(crate) fn note_call<N: Names>(
    names: &N,
    operation: usize,
    times: u64,
    name: &Name,
    ledger: &mut Ledger,
)
    requires { HasRoom (N.tree names.now) ledger.old }
    ensures { IsAdded (N.tree names.now) operation ledger.old ledger.new times (λ a names. names.run name.now) }
{
    add(&mut ledger.runs, names.declared_at(operation, name), times);
}
