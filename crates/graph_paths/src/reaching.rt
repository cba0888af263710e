//! What a node reaches.

ghost use Rattle.std.specs.Prelude.{◌≡◌, ℕ, ◌+◌, ◌<◌, length, IfOk, OnOk, true, not, ◌||◌, ◌&&◌, ◌↔◌, nat_eq};
ghost use Rattle.graph_paths.specs.Paths.{targets, is_in, Leads, Reaches, saw, unseen, AreNodes};

use std::alloc::{AllocError, Global};

// Notes a node as seen, and as one to go on from.
pub(crate) fn mark(
    node: usize,
    seen: &mut Vec<bool>,
    work: &mut Vec<usize>,
) -> Result<(), AllocError>
    requires { node < length seen.old.items }
    ensures length { length seen.new.items ≡ length seen.old.items }
    ensures seen { OnOk result ((b : ℕ) → saw seen.new.items b ≡ (saw seen.old.items b || nat_eq b node)) }
    ensures work { OnOk result ((b : ℕ) → is_in b work.new.items ≡ (is_in b work.old.items || (nat_eq b node && not (saw seen.old.items b)))) }
    ensures count { OnOk result (unseen seen.new.items + length work.new.items ≡ unseen seen.old.items + length work.old.items) }
{
    if seen[node] {
        return Ok(());
    }
    work.push(node)?;
    seen[node] = true;
    Ok(())
}

// Notes each of the nodes.
fn mark_all(nodes: &[usize], seen: &mut Vec<bool>, work: &mut Vec<usize>) -> Result<(), AllocError>
    requires { (b : ℕ) → is_in b nodes.now ≡ true → b < length seen.old.items }
    ensures length { length seen.new.items ≡ length seen.old.items }
    ensures seen { OnOk result ((b : ℕ) → saw seen.new.items b ≡ (saw seen.old.items b || is_in b nodes.now)) }
    ensures work { OnOk result ((b : ℕ) → is_in b work.new.items ≡ (is_in b work.old.items || (is_in b nodes.now && not (saw seen.old.items b)))) }
    ensures count { OnOk result (unseen seen.new.items + length work.new.items ≡ unseen seen.old.items + length work.old.items) }
{
    for node in nodes {
        mark(*node, seen, work)?;
    }
    Ok(())
}

// Notes each of the nodes that a node leads to.
fn follow(
    next: &[Vec<usize>],
    node: usize,
    seen: &mut Vec<bool>,
    work: &mut Vec<usize>,
) -> Result<(), AllocError>
    requires node { node < length next.now }
    requires nodes { AreNodes next.now }
    requires length { length seen.old.items ≡ length next.now }
    ensures length { length seen.new.items ≡ length seen.old.items }
    ensures seen { OnOk result ((b : ℕ) → saw seen.new.items b ≡ (saw seen.old.items b || is_in b (targets next.now node))) }
    ensures work { OnOk result ((b : ℕ) → is_in b work.new.items ≡ (is_in b work.old.items || (is_in b (targets next.now node) && not (saw seen.old.items b)))) }
    ensures count { OnOk result (unseen seen.new.items + length work.new.items ≡ unseen seen.old.items + length work.old.items) }
{
    let nodes = row(next, node);
    mark_all(nodes, seen, work)?;
    Ok(())
}

/// The nodes that a node leads to.
pub fn row(next: &[Vec<usize>], node: usize) -> &[usize]
    requires { node < length next.now }
    ensures { result.now ≡ targets next.now node }
{
    next[node].as_slice()
}

/// The nodes that a node reaches.
pub fn reached_from(
    alloc: Global,
    next: &[Vec<usize>],
    start: usize,
) -> Result<Vec<bool>, AllocError>
    requires start { start < length next.now }
    requires nodes { AreNodes next.now }
    ensures length { IfOk result (λ seen. length seen.items ≡ length next.now) }
    ensures exact { IfOk result (λ seen. (b : ℕ) → (saw seen.items b ≡ true) ↔ Reaches next.now start b) }
{
    let mut seen = vec![in alloc; false; next.len()]?;
    let mut work = Vec::new(alloc);
    follow(next, start, &mut seen, &mut work)?;
    'going: while let Some(node) = work.pop() {
        follow(next, node, &mut seen, &mut work)?;
    }
    Ok(seen)
}

// Whether a node was seen.
#[tactic(auto, using(crate::proofs::Seen::saw_at, crate::proofs::Seen::saw_past))]
pub(crate) fn was_seen(seen: &[bool], node: usize) -> bool
    ensures { result ≡ saw seen.now node }
{
    if node < seen.len() { seen[node] } else { false }
}
