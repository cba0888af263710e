//! Ranks of nodes by the components of a graph: nodes that reach each other have one rank, and other edges lead to a higher one. Nothing
//! is claimed of them here; who uses them looks at each edge again.

use std::alloc::{AllocError, Global};

// The nodes that a node leads to; none past the last one.
fn targets(next: &[Vec<usize>], node: usize) -> &[usize] {
    if node < next.len() {
        next[node].as_slice()
    } else {
        &[]
    }
}

// A node that is to be gone to, or that is left since all that it leads to was.
#[derive(Clone, Copy)]
struct Visit {
    node: usize,
    leaves: bool,
}

// The nodes that were left so far, in this order, those that were seen, and what is to be done.
#[derive(Drop)]
struct Search {
    left: Vec<usize>,
    seen: Vec<bool>,
    work: Vec<Visit>,
}

impl Search {
    // Goes to a node, and plans to go to all that it leads to before it is left.
    fn enter(&mut self, next: &[Vec<usize>], node: usize) -> Result<(), AllocError> {
        if node >= self.seen.len() || self.seen[node] {
            return Ok(());
        }
        self.seen[node] = true;
        self.work.push(Visit { node, leaves: true })?;
        for &target in targets(next, node) {
            self.work.push(Visit {
                node: target,
                leaves: false,
            })?;
        }
        Ok(())
    }

    // Goes on until nothing is left to be done.
    fn go_on(&mut self, next: &[Vec<usize>]) -> Result<(), AllocError> {
        for _ in 0..u64::MAX {
            match self.work.pop() {
                None => break,
                Some(visit) => {
                    if visit.leaves {
                        self.left.push(visit.node)?;
                    } else {
                        self.enter(next, visit.node)?;
                    }
                }
            }
        }
        Ok(())
    }
}

// All nodes, in the order in which a search leaves them.
fn in_order_of_leaving(alloc: Global, next: &[Vec<usize>]) -> Result<Vec<usize>, AllocError> {
    let mut search = Search {
        left: Vec::new(alloc),
        seen: vec![in alloc; false; next.len()]?,
        work: Vec::new(alloc),
    };
    for start in 0..next.len() {
        search.enter(next, start)?;
        search.go_on(next)?;
    }
    let Search { left, .. } = search;
    Ok(left)
}

// The nodes that have a rank, and those from which ranks are still to be handed on.
#[derive(Drop)]
struct Ranking {
    ranks: Vec<usize>,
    ranked: Vec<bool>,
    work: Vec<usize>,
}

impl Ranking {
    // Gives a node a rank, where it has none. Answers whether it had none.
    fn give(&mut self, node: usize, rank: usize) -> Result<bool, AllocError> {
        if node >= self.ranked.len() || node >= self.ranks.len() || self.ranked[node] {
            return Ok(false);
        }
        self.ranked[node] = true;
        self.ranks[node] = rank;
        self.work.push(node)?;
        Ok(true)
    }

    // Gives the nodes from which edges lead to one the same rank.
    fn hand_on(&mut self, nodes: &[usize], rank: usize) -> Result<(), AllocError> {
        for &node in nodes {
            self.give(node, rank)?;
        }
        Ok(())
    }

    // Goes on until nothing is left to be done.
    fn go_on(&mut self, back: &[Vec<usize>], rank: usize) -> Result<(), AllocError> {
        for _ in 0..u64::MAX {
            match self.work.pop() {
                None => break,
                Some(node) => self.hand_on(targets(back, node), rank)?,
            }
        }
        Ok(())
    }
}

/// A rank for each node. The time is in proportion to the nodes and edges.
///
/// The last node that a search leaves is reached by no node but those of its own component, which are found along the edges the other way
/// round; so it is with the last one of the others, and so on.
pub(crate) fn component_ranks(
    alloc: Global,
    next: &[Vec<usize>],
    back: &[Vec<usize>],
) -> Result<Vec<usize>, AllocError> {
    let order = in_order_of_leaving(alloc, next)?;
    let mut ranking = Ranking {
        ranks: vec![in alloc; 0; next.len()]?,
        ranked: vec![in alloc; false; next.len()]?,
        work: Vec::new(alloc),
    };
    let mut rank = 0usize;
    for &node in order.iter().rev() {
        if ranking.give(node, rank)? {
            ranking.go_on(back, rank)?;
            rank = rank.saturating_add(1);
        }
    }
    let Ranking { ranks, .. } = ranking;
    Ok(ranks)
}
