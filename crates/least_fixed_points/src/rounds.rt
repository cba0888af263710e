//! Rounds over a table, until nothing is added.

ghost use Rattle.std.specs.Prelude.{◌≡◌, ◌+◌, ◌<◌, ◌≤◌, ℕ, Option, Some, None, length, replicate, IfOk, IsTrue, false, true, ◌↔◌};
ghost use Rattle.least_fixed_points.specs.Settles.{entry, Settles, IsMonotone, missing, IsSound};

use std::alloc::{AllocError, Global};

/// What follows for a node from a table. What follows from a table follows from a larger one; beyond the table's end nothing follows.
pub trait Rule<T: Copy> {
    /// What follows for a node from what is known.
    ghost step: { Self → (ℕ → Option T) → ℕ → Option T };

    /// How many nodes there are.
    ghost count: { Self → ℕ };

    /// What follows for a node from a table of that many entries.
    fn apply(&self, table: &[Option<T>], node: usize) -> Option<T>
        requires { node < count self.now }
        ensures { result ≡ step self.now (entry table.now) node };

    ghost monotone: { (rule : Self) → IsMonotone (step rule) };

    ghost ends: { (rule : Self) (known : ℕ → Option T) (a : ℕ) → count rule ≤ a → step rule known a ≡ None };
}

// Adds the value of a node, where it has none and one follows.
fn add<T: Copy, R: Rule<T>>(rule: &R, table: &mut Vec<Option<T>>, node: usize) -> bool
    requires count { length table.old.items ≡ R.count rule.now }
    requires node { node < length table.old.items }
    requires sound { IsSound (R.step rule.now) table.old.items }
    ensures count { length table.new.items ≡ length table.old.items }
    ensures sound { IsSound (R.step rule.now) table.new.items }
    ensures added { result ≡ true → missing table.new.items < missing table.old.items }
    ensures same { result ≡ false → table.new.items ≡ table.old.items }
    ensures closed { result ≡ false → entry table.new.items node ≡ None → R.step rule.now (entry table.new.items) node ≡ None }
{
    if table[node].is_some() {
        return false;
    }
    match rule.apply(table.as_slice(), node) {
        None => false,
        Some(value) => {
            table[node] = Some(value);
            true
        }
    }
}

// One round over the nodes. Answers whether anything was added.
fn round<T: Copy, R: Rule<T>>(rule: &R, table: &mut Vec<Option<T>>) -> bool
    requires count { length table.old.items ≡ R.count rule.now }
    requires sound { IsSound (R.step rule.now) table.old.items }
    ensures count { length table.new.items ≡ length table.old.items }
    ensures sound { IsSound (R.step rule.now) table.new.items }
    ensures added { result ≡ true → missing table.new.items < missing table.old.items }
    ensures closed { result ≡ false → (a : ℕ) → entry table.new.items a ≡ None → R.step rule.now (entry table.new.items) a ≡ None }
{
    let mut added = false;
    for node in 0..table.len() {
        if add(rule, table, node) {
            added = true;
        }
    }
    added
}

// A table without values.
fn no_values<T: Copy>(alloc: Global, count: usize) -> Result<Vec<Option<T>>, AllocError>
    ensures { IfOk result (λ table. table.items ≡ replicate count None) }
{
    let mut table = Vec::with_capacity(alloc, count)?;
    for _node in 0..count {
        table.push(None)?;
    }
    Ok(table)
}

// Goes over some nodes once, in the order in which they are given; what is no node is passed over.
fn visit<T: Copy, R: Rule<T>>(rule: &R, table: &mut Vec<Option<T>>, order: &[usize])
    requires count { length table.old.items ≡ R.count rule.now }
    requires sound { IsSound (R.step rule.now) table.old.items }
    ensures count { length table.new.items ≡ length table.old.items }
    ensures sound { IsSound (R.step rule.now) table.new.items }
{
    for &node in order {
        if node < table.len() {
            add(rule, table, node);
        }
    }
}

/// The value of each node that has one. A node whose value would rest on itself has none.
///
/// The table is gone over until nothing is added, so the time is in proportion to the nodes times the rounds: two, where each node rests
/// on earlier ones alone.
pub fn settle<T: Copy, R: Rule<T>>(
    alloc: Global,
    rule: &R,
    count: usize,
) -> Result<Vec<Option<T>>, AllocError>
    requires { count ≡ R.count rule.now }
    ensures length { IfOk result (λ table. length table.items ≡ count) }
    ensures exact { IfOk result (λ table. (a : ℕ) (t : T) → (entry table.items a ≡ Some t) ↔ Settles (R.step rule.now) a t) }
{
    settle_along(alloc, rule, count, &[])
}

/// The same, where some nodes are first gone over in a given order. Any order is right. One in which each node stands behind those that it
/// rests on leaves a single round to be made.
pub fn settle_along<T: Copy, R: Rule<T>>(
    alloc: Global,
    rule: &R,
    count: usize,
    order: &[usize],
) -> Result<Vec<Option<T>>, AllocError>
    requires { count ≡ R.count rule.now }
    ensures length { IfOk result (λ table. length table.items ≡ count) }
    ensures exact { IfOk result (λ table. (a : ℕ) (t : T) → (entry table.items a ≡ Some t) ↔ Settles (R.step rule.now) a t) }
{
    let mut table = no_values(alloc, count)?;
    visit(rule, &mut table, order);
    'rounds: while round(rule, &mut table) {}
    Ok(table)
}
