//! The types of operations, choices and declared names.

ghost use Rattle.std.specs.Prelude.{◌≡◌, [], option_map};
ghost use Rattle.lisa_tree.specs.Expressions.{expr_tree};
ghost use Rattle.least_fixed_points.specs.Settles.{entry};
ghost use Rattle.description_types.specs.Facts.{added, known_together};
ghost use Rattle.description_types.specs.Kinds.{as_type, expression_type, both_types, is_refused_type, any_refused, unrefused, choice_type, type_of_choice, type_fact};
ghost use Rattle.description_types.specs.Codings.{AreCodings};
ghost use Rattle.description_types.specs.Steady.{types_steady};

use crate::bases::{add_typed, bases_of_choice};
use crate::codings::coding_at;
use crate::facts::Facts;
use crate::lookups::{any_open, known_operation, lacks_expression, sections};
use crate::meant::Property;
use crate::refused::{rests_on_open, rests_on_refused};
use crate::shapes::same_shape;
use crate::types::type_of;
use crate::values::{CodedName, TypeOf};
use description_places::Scope;
use lisa_tree::{Expr, Names, Shape, expression};
use std::alloc::AllocError;

/// The rules of types.
#[derive(Drop)]
pub(crate) struct TypeFacts<'a, N: Names, P> {
    pub names: &'a N,
    /// Which declared names may be no value.
    pub unfit: &'a P,
    /// How declared names stand in codings.
    pub codings: &'a [CodedName],
    /// No locals are in scope in an operation's expression.
    pub no_locals: Scope,
    ghost coded: { AreCodings (N.tree names.now) codings.now },
    ghost empty: { no_locals ≡ [] },
}

fn as_type(shape: Option<Shape>) -> TypeOf
    ensures { result ≡ as_type shape }
{
    match shape {
        None => TypeOf::Refused,
        Some(shape) => TypeOf::Typed(shape),
    }
}

// The type of an operation, by its expression.
fn expression_type<N: Names, P: Property>(
    names: &N,
    unfit: &P,
    table: &[Option<TypeOf>],
    operation: usize,
    no_locals: &Scope,
    expression: Option<&Expr>,
) -> Option<TypeOf>
    requires { no_locals.now ≡ [] }
    ensures { result ≡ expression_type (P.holds unfit.now) (entry table.now) (N.tree names.now) operation (option_map (λ e. expr_tree e.now) expression.entry) }
{
    match expression {
        None => Some(TypeOf::NoType),
        Some(expression) => {
            if rests_on_open(names, unfit, table, operation, expression) {
                return None;
            }
            if rests_on_refused(names, unfit, operation, expression) {
                return Some(TypeOf::Refused);
            }
            let shape = type_of(names, table, operation, no_locals, expression);
            Some(as_type(shape))
        }
    }
}

// The type that two alternatives of a choice, or two declarations that a reference may mean, have together.
fn both_types(left: TypeOf, right: TypeOf) -> TypeOf
    ensures { result ≡ both_types left right }
{
    match (left, right) {
        (TypeOf::Typed(first), TypeOf::Typed(second)) => {
            if same_shape(first, second) {
                TypeOf::Typed(first)
            } else {
                TypeOf::NoType
            }
        }
        (TypeOf::Refused, _) | (_, TypeOf::Refused) => TypeOf::Refused,
        _ => TypeOf::NoType,
    }
}

fn is_refused_type(value: Option<TypeOf>) -> bool
    ensures { result ≡ is_refused_type value }
{
    match value {
        Some(TypeOf::Refused) => true,
        _ => false,
    }
}

// Whether some of these operations rests on a refused use.
fn any_refused(table: &[Option<TypeOf>], operations: &[usize]) -> bool
    ensures { result ≡ any_refused (entry table.now) operations.now }
{
    for &operation in operations {
        if is_refused_type(known_operation(table, operation)) {
            return true;
        }
    }
    false
}

/// A value that isn't refused.
pub(crate) fn unrefused(value: Option<TypeOf>) -> Option<TypeOf>
    ensures { result ≡ unrefused value }
{
    match value {
        Some(TypeOf::Refused) => None,
        value => value,
    }
}

// The type that an alternative and others have together, as far as they are known.
fn added(value: Option<TypeOf>, others: Option<TypeOf>) -> Option<TypeOf>
    ensures { result ≡ added both_types value others }
{
    match (value, others) {
        (None, others) => others,
        (value, None) => value,
        (Some(value), Some(others)) => Some(both_types(value, others)),
    }
}

// The type that those of some operations that aren't refused have together.
fn known_together(table: &[Option<TypeOf>], operations: &[usize]) -> Option<TypeOf>
    ensures { result ≡ known_together both_types (λ o. unrefused (entry table.now o)) operations.now }
{
    let mut so_far = None;
    for &operation in operations {
        so_far = added(so_far, unrefused(known_operation(table, operation)));
    }
    so_far
}

// The type of a choice, by whether an alternative has no expression, one is open or one is refused, and by the type that the others have
// together.
fn choice_type(
    lacks: bool,
    some_open: bool,
    some_refused: bool,
    others: Option<TypeOf>,
) -> Option<TypeOf>
    ensures { result ≡ choice_type lacks some_open some_refused others }
{
    if lacks {
        return Some(TypeOf::NoType);
    }
    if some_open {
        return None;
    }
    match others {
        Some(TypeOf::NoType) => Some(TypeOf::NoType),
        Some(others) if !some_refused => Some(others),
        _ => Some(TypeOf::Refused),
    }
}

fn type_of_choice<N: Names>(
    names: &N,
    table: &[Option<TypeOf>],
    operations: &[usize],
) -> Option<TypeOf>
    ensures { result ≡ type_of_choice (N.tree names.now) (entry table.now) operations.now }
{
    choice_type(
        lacks_expression(names, operations),
        any_open(table, operations),
        any_refused(table, operations),
        known_together(table, operations),
    )
}

impl<'a, N: Names, P: Property> Facts<TypeOf> for TypeFacts<'a, N, P> {
    ghost fact = { λ c. type_fact (N.tree c.names.now) (P.holds c.unfit.now) };

    fn of_operation(&self, table: &[Option<TypeOf>], operation: usize) -> Option<TypeOf> {
        let sections = sections(self.names, operation);
        expression_type(
            self.names,
            self.unfit,
            table,
            operation,
            &self.no_locals,
            expression(sections),
        )
    }

    fn of_choice(&self, table: &[Option<TypeOf>], choice: usize) -> Option<TypeOf> {
        type_of_choice(self.names, table, self.names.plain_at(choice))
    }

    fn of_label(&self, entry: usize) -> TypeOf {
        coding_at(self.codings, entry).label
    }

    fn of_child(&self, _entry: usize, choice: TypeOf) -> TypeOf {
        choice
    }

    fn either(&self, left: TypeOf, right: TypeOf) -> TypeOf {
        both_types(left, right)
    }

    fn add_bases(&self, operation: usize, into: &mut Vec<usize>) -> Result<(), AllocError> {
        match expression(sections(self.names, operation)) {
            None => Ok(()),
            Some(expression) => add_typed(self.names, self.unfit, operation, expression, into),
        }
    }

    fn bases_of_choice(&self, choice: usize) -> &[usize] {
        bases_of_choice(self.names, choice)
    }

    ghost steady = { λ c. types_steady (N.tree c.names.now) (P.holds c.unfit.now) };
}
