//! Whether what operations, choices and declared names stand for may be assigned.

ghost use Rattle.std.specs.Prelude.{◌≡◌, option_map};
ghost use Rattle.lisa_tree.specs.Expressions.{expr_tree};
ghost use Rattle.lisa_tree.specs.Descriptions.{resource_tree};
ghost use Rattle.least_fixed_points.specs.Settles.{entry};
ghost use Rattle.description_types.specs.Facts.{added, known_together};
ghost use Rattle.description_types.specs.Kinds.{resource_assignable, settled_assignable, meant_assignable, array_assignable, value_assignable, expression_assignable, both_assignable, choice_assignable, assignable_of_choice, either_assignable, assignable_fact};
ghost use Rattle.description_types.specs.Steady.{assignables_steady};

use crate::bases::{add_named, bases_of_choice};
use crate::facts::Facts;
use crate::lookups::{
    any_open, known_entry, known_operation, lacks_expression, resource, sections,
};
use crate::meant::Property;
use crate::refused::{is_open, is_refused};
use crate::types::meant_element;
use crate::values::Assignable;
use lisa_tree::{Expr, Meaning, Names, Resource, Shape, expression};
use std::alloc::AllocError;

/// The rules of what may be assigned.
#[derive(Drop)]
pub(crate) struct AssignableFacts<'a, N, A, P> {
    pub names: &'a N,
    /// Which declared names may be no value by their traits alone.
    pub apart: &'a A,
    /// Which declared names may be no value.
    pub unfit: &'a P,
}

fn resource_assignable(resource: Option<&Resource>) -> Option<Assignable>
    ensures { result ≡ resource_assignable (option_map (λ r. resource_tree r.now) resource.entry) }
{
    match resource {
        Some(Resource::Register(_, _, _, None)) | Some(Resource::Clocked(_, _, _)) => {
            Some(Assignable::Yes)
        }
        Some(Resource::Pin(_, _)) => Some(Assignable::No),
        _ => Some(Assignable::Refused),
    }
}

// Declarations that differ are refused where the reference is declared.
fn settled_assignable(value: Option<Assignable>) -> Option<Assignable>
    ensures { result ≡ settled_assignable value }
{
    match value {
        Some(Assignable::Mixed) => Some(Assignable::Refused),
        value => value,
    }
}

fn meant_assignable<N: Names>(
    names: &N,
    table: &[Option<Assignable>],
    meaning: Meaning,
) -> Option<Assignable>
    ensures { result ≡ meant_assignable (entry table.now) (N.tree names.now) meaning }
{
    match meaning {
        Meaning::Nothing => Some(Assignable::Refused),
        Meaning::Resource(number) => resource_assignable(resource(names, number)),
        Meaning::Declared(number) => settled_assignable(known_entry(names, table, number)),
    }
}

fn array_assignable(shape: Option<Shape>) -> Option<Assignable>
    ensures { result ≡ array_assignable shape }
{
    match shape {
        None => Some(Assignable::Refused),
        Some(_) => Some(Assignable::Yes),
    }
}

// Whether an expression may be assigned.
fn value_assignable<N: Names>(
    names: &N,
    table: &[Option<Assignable>],
    operation: usize,
    expression: &Expr,
) -> Option<Assignable>
    ensures { result ≡ value_assignable (entry table.now) (N.tree names.now) operation (expr_tree expression.now) }
{
    match expression {
        Expr::Named(name) => meant_assignable(names, table, names.meaning(operation, name)),
        Expr::Element(name, _) => {
            array_assignable(meant_element(names, names.meaning(operation, name)))
        }
        _ => Some(Assignable::No),
    }
}

// Whether an operation's expression may be assigned.
fn expression_assignable<N: Names, A: Property, P: Property>(
    names: &N,
    apart: &A,
    unfit: &P,
    table: &[Option<Assignable>],
    operation: usize,
    expression: Option<&Expr>,
) -> Option<Assignable>
    ensures { result ≡ expression_assignable (A.holds apart.now) (P.holds unfit.now) (entry table.now) (N.tree names.now) operation (option_map (λ e. expr_tree e.now) expression.entry) }
{
    match expression {
        None => Some(Assignable::No),
        Some(expression) => {
            if is_open(names, apart, table, operation, expression) {
                return None;
            }
            if is_refused(names, unfit, operation, expression) {
                return Some(Assignable::Refused);
            }
            value_assignable(names, table, operation, expression)
        }
    }
}

// Whether two alternatives of a choice may be assigned.
fn both_assignable(left: Assignable, right: Assignable) -> Assignable
    ensures { result ≡ both_assignable left right }
{
    match (left, right) {
        (Assignable::Yes, Assignable::Yes) => Assignable::Yes,
        (Assignable::Yes, Assignable::Refused)
        | (Assignable::Refused, Assignable::Yes)
        | (Assignable::Refused, Assignable::Refused) => Assignable::Refused,
        _ => Assignable::No,
    }
}

// Whether a reference that may mean two declarations may be assigned.
fn either_assignable(left: Assignable, right: Assignable) -> Assignable
    ensures { result ≡ either_assignable left right }
{
    match (left, right) {
        (Assignable::Yes, Assignable::Yes) => Assignable::Yes,
        (Assignable::No, Assignable::No) => Assignable::No,
        (Assignable::Refused, _) | (_, Assignable::Refused) => Assignable::Refused,
        _ => Assignable::Mixed,
    }
}

// Whether an alternative and others may be assigned, as far as they are known.
fn added(value: Option<Assignable>, others: Option<Assignable>) -> Option<Assignable>
    ensures { result ≡ added both_assignable value others }
{
    match (value, others) {
        (None, others) => others,
        (value, None) => value,
        (Some(value), Some(others)) => Some(both_assignable(value, others)),
    }
}

// Whether all those of some operations that are known may be assigned.
fn known_together(table: &[Option<Assignable>], operations: &[usize]) -> Option<Assignable>
    ensures { result ≡ known_together both_assignable (entry table.now) operations.now }
{
    let mut so_far = None;
    for &operation in operations {
        so_far = added(so_far, known_operation(table, operation));
    }
    so_far
}

// Whether a choice may be assigned, by whether an alternative has no expression or one is open, and by what they make together.
fn choice_assignable(lacks: bool, some_open: bool, others: Option<Assignable>) -> Option<Assignable>
    ensures { result ≡ choice_assignable lacks some_open others }
{
    if lacks {
        return Some(Assignable::No);
    }
    if some_open {
        return None;
    }
    match others {
        None => Some(Assignable::Refused),
        others => others,
    }
}

fn assignable_of_choice<N: Names>(
    names: &N,
    table: &[Option<Assignable>],
    operations: &[usize],
) -> Option<Assignable>
    ensures { result ≡ assignable_of_choice (N.tree names.now) (entry table.now) operations.now }
{
    choice_assignable(
        lacks_expression(names, operations),
        any_open(table, operations),
        known_together(table, operations),
    )
}

impl<'a, N: Names, A: Property, P: Property> Facts<Assignable> for AssignableFacts<'a, N, A, P> {
    ghost fact = { λ c. assignable_fact (N.tree c.names.now) (A.holds c.apart.now) (P.holds c.unfit.now) };

    fn of_operation(&self, table: &[Option<Assignable>], operation: usize) -> Option<Assignable> {
        let sections = sections(self.names, operation);
        expression_assignable(
            self.names,
            self.apart,
            self.unfit,
            table,
            operation,
            expression(sections),
        )
    }

    fn of_choice(&self, table: &[Option<Assignable>], choice: usize) -> Option<Assignable> {
        assignable_of_choice(self.names, table, self.names.plain_at(choice))
    }

    fn of_label(&self, _entry: usize) -> Assignable {
        Assignable::No
    }

    fn of_child(&self, _entry: usize, choice: Assignable) -> Assignable {
        choice
    }

    fn either(&self, left: Assignable, right: Assignable) -> Assignable {
        either_assignable(left, right)
    }

    fn add_bases(&self, operation: usize, into: &mut Vec<usize>) -> Result<(), AllocError> {
        match expression(sections(self.names, operation)) {
            Some(Expr::Named(name)) => add_named(self.names, self.apart, operation, name, into),
            _ => Ok(()),
        }
    }

    fn bases_of_choice(&self, choice: usize) -> &[usize] {
        bases_of_choice(self.names, choice)
    }

    ghost steady = { λ c. assignables_steady (N.tree c.names.now) (A.holds c.apart.now) (P.holds c.unfit.now) };
}
