//! The operations that references may choose.

ghost use Rattle.std.specs.Prelude.{◌≡◌, ◌<◌, ◌-◌, ℕ, List, [], IfOk, OnOk, Some, length, map, true, false};
ghost use Rattle.std.specs.Global.{Vec};
ghost use Rattle.std.specs.Rc.{rc_value};
ghost use Rattle.graph_paths.specs.Paths.{targets, saw};
ghost use Rattle.graph_paths.specs.Below.{AreBelow};
ghost use Rattle.lisa_tree.specs.declared.declared.What.TheVariants as whats;
ghost use Rattle.lisa_tree.specs.Declarations.{what_at};
ghost use Rattle.description_graph.specs.Graph.{IsOutline};
ghost use Rattle.text_counts.specs.References.{AreMeanings};
ghost use Rattle.text_counts.specs.Gathering.{IsGathered};

use crate::gathering::{Graph, Numbers, SUMS, list_at, visit};
use lisa_tree::Names;
use lisa_words::NoMemory;
use std::alloc::{AllocError, Global};
use std::marker::Model;
use std::rc::Rc;

/// What each reference of a description may choose: operations that are no aliases, each once, in the order of their numbers.
#[derive(Drop)]
pub struct Meanings {
    lists: Vec<Numbers>,
}

impl Model for Meanings {
    ghost Value = { List (Vec ℕ) };

    ghost view = { λ m. map rc_value m.lists.items };
}

// An empty list for each of so many.
fn no_lists(alloc: Global, count: usize) -> Result<Vec<Numbers>, AllocError>
    ensures length { IfOk result (λ lists. length lists.items ≡ count) }
    ensures none { IfOk result (λ lists. (i : ℕ) → targets (map rc_value lists.items) i ≡ []) }
{
    let empty = Rc::new(alloc, Vec::new(alloc))?;
    let mut lists = Vec::new(alloc);
    for _number in 0..count {
        let list = empty.clone()?;
        lists.push(list)?;
    }
    Ok(lists)
}

impl Meanings {
    /// Finds them out, from an outline of the description's graph. References are gone over in an order of the nodes, in which each should
    /// stand behind those to which it leads; any order is right.
    pub fn make<N: Names>(
        alloc: Global,
        names: &N,
        next: &[Vec<usize>],
        order: &[usize],
    ) -> Result<Meanings, NoMemory>
        requires { IsOutline (N.tree names.now) next.now }
        ensures { IfOk result (λ meanings. AreMeanings (N.tree names.now) (targets meanings)) }
    {
        let count = names.entry_count();
        let graph = Graph {
            names,
            next,
            base: next.len() - count,
        };
        let mut lists = no_lists(alloc, count)?;
        let mut done = vec![in alloc; false; count]?;
        let mut latest = vec![in alloc; 0; SUMS]?;
        for &node in order {
            if let Some(number) = node.checked_sub(graph.base) {
                visit(alloc, &graph, &mut lists, &mut done, &mut latest, number)?;
            }
        }
        for number in 0..count {
            visit(alloc, &graph, &mut lists, &mut done, &mut latest, number)?;
        }
        Ok(Meanings { lists })
    }

    /// What a reference may choose, by its number among the declared names; of other names nothing is told.
    pub fn of_reference(&self, reference: usize) -> &[usize]
        ensures { result.now ≡ targets self.now reference }
    {
        list_at(&self.lists, reference)
    }
}
