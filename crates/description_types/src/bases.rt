//! The order in which nodes are gone over: each behind those that it rests on, so that most have their value at once. Nothing is claimed
//! of it, since any order leads to the same values: so these functions, which no other crate sees, have no clauses.

use crate::facts::{Facts, Following};
use crate::lookups::{lacks_expression, operation_count, row_at};
use crate::meant::Property;
use lisa_tree::{Expr, Meaning, Names, Operator, What};
use lisa_words::Name;
use std::alloc::{AllocError, Global};

// The node of a declared name; a number past all nodes where it has none.
fn entry_node<N: Names>(names: &N, entry: usize) -> usize {
    operation_count(names)
        .saturating_add(names.choice_count())
        .saturating_add(entry)
}

/// Adds what a name rests on. A name that may be no value is refused, and rests on nothing.
pub(crate) fn add_named<N: Names, P: Property>(
    names: &N,
    unfit: &P,
    operation: usize,
    name: &Name,
    into: &mut Vec<usize>,
) -> Result<(), AllocError> {
    match names.meaning(operation, name) {
        Meaning::Declared(entry) if !unfit.holds(entry) => {
            into.push(entry_node(names, entry))?;
            Ok(())
        }
        _ => Ok(()),
    }
}

/// Adds what the type of an expression rests on.
pub(crate) fn add_typed<N: Names, P: Property>(
    names: &N,
    unfit: &P,
    operation: usize,
    expression: &Expr,
    into: &mut Vec<usize>,
) -> Result<(), AllocError> {
    match expression {
        Expr::Named(name) => add_named(names, unfit, operation, name, into),
        Expr::Complement(value) => add_typed(names, unfit, operation, value, into),
        Expr::Two(operator, left, right) => match operator {
            Operator::Left | Operator::Right => add_typed(names, unfit, operation, left, into),
            Operator::Add
            | Operator::Sub
            | Operator::Mul
            | Operator::And
            | Operator::Or
            | Operator::Xor => {
                add_typed(names, unfit, operation, left, into)?;
                add_typed(names, unfit, operation, right, into)
            }
            _ => Ok(()),
        },
        Expr::Choose(_, left, right) => {
            add_typed(names, unfit, operation, left, into)?;
            add_typed(names, unfit, operation, right, into)
        }
        _ => Ok(()),
    }
}

/// The operations on which a choice rests. One that has an alternative without an expression rests on nothing.
pub(crate) fn bases_of_choice<N: Names>(names: &N, choice: usize) -> &[usize] {
    let plain = names.plain_at(choice);
    if lacks_expression(names, plain) {
        &[]
    } else {
        plain
    }
}

// Adds what a reference rests on.
fn add_sources<N: Names>(
    names: &N,
    row: &[usize],
    into: &mut Vec<usize>,
) -> Result<(), AllocError> {
    for &entry in row {
        into.push(entry_node(names, entry))?;
    }
    Ok(())
}

// Adds what a node rests on.
fn add_bases<T: Copy, N: Names, F: Facts<T>>(
    rule: &Following<'_, N, F>,
    node: usize,
    into: &mut Vec<usize>,
) -> Result<(), AllocError> {
    let names = rule.names;
    let operations = operation_count(names);
    if node < operations {
        return rule.facts.add_bases(node, into);
    }
    let choices = names.choice_count();
    if node - operations < choices {
        into.extend_from_slice(rule.facts.bases_of_choice(node - operations))?;
        return Ok(());
    }
    let entry = node - operations - choices;
    match names.what_at(entry) {
        Some(What::Group(choice)) | Some(What::Instance(choice)) => {
            into.push(operations.saturating_add(choice))?;
            Ok(())
        }
        Some(What::Reference) => add_sources(names, row_at(rule.sources, entry), into),
        _ => Ok(()),
    }
}

// A node that is to be gone over, and whether what it rests on has been.
#[derive(Clone, Copy)]
struct Visit {
    node: usize,
    ready: bool,
}

// The nodes that have been gone over so far, and what is to be done.
#[derive(Drop)]
struct Search {
    order: Vec<usize>,
    seen: Vec<bool>,
    work: Vec<Visit>,
    bases: Vec<usize>,
}

impl Search {
    // Goes to a node: it comes into the order behind what it rests on.
    fn enter<T: Copy, N: Names, F: Facts<T>>(
        &mut self,
        rule: &Following<'_, N, F>,
        node: usize,
    ) -> Result<(), AllocError> {
        if node >= self.seen.len() || self.seen[node] {
            return Ok(());
        }
        self.seen[node] = true;
        self.work.push(Visit { node, ready: true })?;
        add_bases(rule, node, &mut self.bases)?;
        self.plan()
    }

    // Plans to go to the nodes that were found, where that wasn't done before.
    fn plan(&mut self) -> Result<(), AllocError> {
        for &base in &self.bases {
            if base < self.seen.len() && !self.seen[base] {
                self.work.push(Visit {
                    node: base,
                    ready: false,
                })?;
            }
        }
        self.bases.clear();
        Ok(())
    }

    // Goes on until nothing is left to be done.
    fn go_on<T: Copy, N: Names, F: Facts<T>>(
        &mut self,
        rule: &Following<'_, N, F>,
    ) -> Result<(), AllocError> {
        for _ in 0..u64::MAX {
            match self.work.pop() {
                None => break,
                Some(visit) => {
                    if visit.ready {
                        self.order.push(visit.node)?;
                    } else {
                        self.enter(rule, visit.node)?;
                    }
                }
            }
        }
        Ok(())
    }
}

/// All nodes, each behind those that it rests on, as far as they don't rest on each other.
pub(crate) fn order<T: Copy, N: Names, F: Facts<T>>(
    alloc: Global,
    rule: &Following<'_, N, F>,
    count: usize,
) -> Result<Vec<usize>, AllocError> {
    let mut search = Search {
        order: Vec::new(alloc),
        seen: vec![in alloc; false; count]?,
        work: Vec::new(alloc),
        bases: Vec::new(alloc),
    };
    for start in 0..count {
        search.enter(rule, start)?;
        search.go_on(rule)?;
    }
    let Search { order, .. } = search;
    Ok(order)
}
