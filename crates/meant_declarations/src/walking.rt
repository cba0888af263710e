//! A walk along the edges of a graph from all marked nodes at once.

ghost use Rattle.std.specs.Prelude.{◌≡◌, ◌+◌, ◌<◌, ◌||◌, ◌&&◌, ℕ, length, IfOk, OnOk, Some, None, cond, nat_eq, nat_lt};
ghost use Rattle.std.specs.Option.{is_some, is_none};
ghost use Rattle.graph_paths.specs.Paths.{AreNodes, is_in, saw};
ghost use Rattle.graph_paths.specs.Below.{AreBelow};
ghost use Rattle.least_fixed_points.specs.Settles.{entry, missing};
ghost use Rattle.meant_declarations.specs.Walks.{IsOrigin, Walked, kept};

use graph_paths::row;
use std::alloc::{AllocError, Global};

/// Whether a list has a mark at a number.
#[tactic(auto, using(graph_paths::proofs::Seen::saw_at, graph_paths::proofs::Seen::saw_past))]
pub(crate) fn is_marked(marked: &[bool], number: usize) -> bool
    ensures { result ≡ saw marked.now number }
{
    if number < marked.len() {
        marked[number]
    } else {
        false
    }
}

/// The entry of a table at a number. Past the end there is none.
#[tactic(auto, using(least_fixed_points::proofs::Entries::entry_at, least_fixed_points::proofs::Entries::entry_past))]
pub(crate) fn entry_at<T: Copy>(table: &[Option<T>], number: usize) -> Option<T>
    ensures { result ≡ entry table.now number }
{
    if number < table.len() {
        table[number]
    } else {
        None
    }
}

/// Where a table has entries.
pub(crate) fn are_some<T: Copy>(alloc: Global, table: &[Option<T>]) -> Result<Vec<bool>, AllocError>
    ensures length { IfOk result (λ marked. length marked.items ≡ length table.now) }
    ensures marked { IfOk result (λ marked. (i : ℕ) → saw marked.items i ≡ is_some (entry table.now i)) }
{
    let mut marked = Vec::new(alloc);
    for entry in table {
        marked.push(entry.is_some())?;
    }
    Ok(marked)
}

// For each node the marked one from which it was come to, and the nodes from which the walk still goes on.
#[derive(Drop)]
struct Walk {
    found: Vec<Option<usize>>,
    work: Vec<usize>,
}

impl Walk {
    // Takes in one more node, which may be marked.
    fn add(&mut self, is_marked: bool) -> Result<(), AllocError>
        ensures count { OnOk result (length self.new.found.items ≡ length self.old.found.items + 1) }
        ensures found { OnOk result ((b : ℕ) → entry self.new.found.items b ≡ kept (entry self.old.found.items b) (is_marked && nat_eq b (length self.old.found.items)) b) }
        ensures work { OnOk result ((b : ℕ) → is_in b self.new.work.items ≡ (is_in b self.old.work.items || (is_marked && nat_eq b (length self.old.found.items)))) }
    {
        let node = self.found.len();
        if is_marked {
            self.work.push(node)?;
            self.found.push(Some(node))?;
        } else {
            self.found.push(None)?;
        }
        Ok(())
    }

    // Begins at the marked ones of so many nodes.
    fn begin(alloc: Global, count: usize, starts: &[bool]) -> Result<Walk, AllocError>
        ensures count { IfOk result (λ walk. length walk.found.items ≡ count) }
        ensures found { IfOk result (λ walk. (b : ℕ) → entry walk.found.items b ≡ cond (nat_lt b count && saw starts.now b) (Some b) None) }
        ensures work { IfOk result (λ walk. (b : ℕ) → is_in b walk.work.items ≡ (nat_lt b count && saw starts.now b)) }
    {
        let mut walk = Walk {
            found: Vec::new(alloc),
            work: Vec::new(alloc),
        };
        for node in 0..count {
            walk.add(is_marked(starts, node))?;
        }
        Ok(walk)
    }

    // Notes where a node is come from, and goes on from it, where it wasn't come to before.
    fn come(&mut self, node: usize, origin: usize) -> Result<(), AllocError>
        requires { node < length self.old.found.items }
        ensures count { length self.new.found.items ≡ length self.old.found.items }
        ensures found { OnOk result ((b : ℕ) → entry self.new.found.items b ≡ kept (entry self.old.found.items b) (nat_eq b node) origin) }
        ensures work { OnOk result ((b : ℕ) → is_in b self.new.work.items ≡ (is_in b self.old.work.items || (nat_eq b node && is_none (entry self.old.found.items b)))) }
        ensures steps { OnOk result (missing self.new.found.items + length self.new.work.items ≡ missing self.old.found.items + length self.old.work.items) }
    {
        if entry_at(&self.found, node).is_some() {
            return Ok(());
        }
        self.work.push(node)?;
        self.found[node] = Some(origin);
        Ok(())
    }

    // The same for each of some nodes.
    fn come_to_all(&mut self, nodes: &[usize], origin: usize) -> Result<(), AllocError>
        requires { AreBelow (length self.old.found.items) nodes.now }
        ensures count { length self.new.found.items ≡ length self.old.found.items }
        ensures found { OnOk result ((b : ℕ) → entry self.new.found.items b ≡ kept (entry self.old.found.items b) (is_in b nodes.now) origin) }
        ensures work { OnOk result ((b : ℕ) → is_in b self.new.work.items ≡ (is_in b self.old.work.items || (is_in b nodes.now && is_none (entry self.old.found.items b)))) }
        ensures steps { OnOk result (missing self.new.found.items + length self.new.work.items ≡ missing self.old.found.items + length self.old.work.items) }
    {
        for &node in nodes {
            self.come(node, origin)?;
        }
        Ok(())
    }
}

/// For each node a marked one from which it is come to by any number of edges, if there is one. The time is in proportion to the nodes and
/// edges.
pub(crate) fn origins(
    alloc: Global,
    next: &[Vec<usize>],
    starts: &[bool],
) -> Result<Vec<Option<usize>>, AllocError>
    requires { AreNodes next.now }
    ensures count { IfOk result (λ found. length found.items ≡ length next.now) }
    ensures exact { IfOk result (λ found. (b : ℕ) → IsOrigin next.now starts.now b (entry found.items b)) }
{
    let mut walk = Walk::begin(alloc, next.len(), starts)?;
    'going: while let Some(node) = walk.work.pop() {
        if let Some(origin) = entry_at(&walk.found, node) {
            walk.come_to_all(row(next, node), origin)?;
        }
    }
    let Walk { found, .. } = walk;
    Ok(found)
}
